// Recorded answers of the Rust crate markdown 1.0.0, replayed without it; what a line asks, and the form of its answer, stand in crates/cases. The files stdin and
// stdout are written by compare/record.sh, which asks the Rust, and the table of refusals in docs/SCOPE.md; it tells what the cases cover. Each of the 2,242 traces is taken narrow and
// wide again: but for three whose stops are above 65,535 they come back.
#![tactic(auto)]

use std::io;

fn main(rt: HostRuntime) -> io::Result<()> {
    cases::run::all(&rt)
}
