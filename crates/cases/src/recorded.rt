// Cases of a scan and its trace, which compare/record.sh records from the Rust.
use crate::case::Case;
use crate::conversions::show_back;
use crate::scans::Part;
use crate::traces::show_trace;
use crate::{scans, traces};
use lexical::slice::from_indices;
use rules::crate_rules;
use rules::refusal::Refusal;
use std::alloc::Global;
use std::io;
use std::io::Write;

// The trace that an entry writes for the case, behind a space, and whether it comes back from narrow.
fn show_traced<F: FnOnce(&Case, &mut [u8]) -> Result<usize, Refusal>>(
    alloc: Global,
    out: &mut impl Write,
    case: &Case,
    entry: F,
) -> io::Result<()>
    requires { F.IsAlwaysCallable entry }
{
    let mut buffer = case.buffer(alloc)?;
    let answer = entry(case, &mut buffer);
    write!(out, " ")?;
    show_trace(out, answer, &buffer)?;
    match answer {
        Ok(length) => show_back(alloc, out, from_indices(&buffer, 0, length)),
        Err(_) => Ok(()),
    }
}

// The inline scan, and its trace.
pub fn inline(alloc: Global, out: &mut impl Write, case: &Case) -> io::Result<()> {
    scans::inline(out, case, crate_rules())?;
    show_traced(alloc, out, case, traces::inline)
}

// The block scan, and its trace.
pub fn block(alloc: Global, out: &mut impl Write, case: &Case) -> io::Result<()> {
    scans::block(out, case, crate_rules(), Part::Stop)?;
    show_traced(alloc, out, case, traces::block)
}
