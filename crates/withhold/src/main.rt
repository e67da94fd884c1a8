// The program. It withholds raw HTML from the bulletin on standard input, all of whose flags are 0, and writes what is shown to standard output. On a refusal it
// writes only `refused N` and LF, to standard error. Where it cannot read, or cannot write, it says so there, in one line.
#![tactic(auto)]

mod answer;
mod call;
mod input;
mod output;

use answer::{LIMIT, answer};
use input::read_input;
use lexical::slice::from_indices;
use output::write_output;

// A line on standard error, and nothing where that cannot be written: there is no other place to say so.
fn say(rt: &HostRuntime, line: &str) {
    let mut error = rt.stderr();
    let _ = write_output(&mut error, line.as_bytes());
}

fn show(rt: &HostRuntime, bulletin: &[u8]) {
    let mut out = [0u8; LIMIT];
    match answer(bulletin, &mut out) {
        Ok(withheld) => {
            let mut output = rt.stdout();
            if write_output(&mut output, from_indices(&out, 0, withheld.length)).is_err() {
                say(rt, "withhold: cannot write standard output\n");
            }
        }
        Err(refusal) => {
            let _ = eprintln!(rt; "{refusal}");
        }
    }
}

fn main(rt: HostRuntime) {
    // One byte above the limit, so that a longer bulletin is refused and not cut.
    let mut text = [0u8; LIMIT + 1];
    let mut input = rt.stdin();
    match read_input(&mut input, &mut text) {
        Ok(length) => show(&rt, from_indices(&text, 0, length)),
        Err(_) => say(&rt, "withhold: cannot read standard input\n"),
    }
}
