// Cases of finding, of showing beside spans, and of stretches. Spans that are given are the flags, one digit for each number.
use crate::case::Case;
use crate::screens::{show_bytes, show_written};
use rules::Rules;
use screen::find::find;
use spans::list::SPAN_NUMBERS;
use spans::show::show;
use spans::stretch::{stretch, stretch_part};
use std::alloc::{AllocError, Global};
use std::io;
use std::io::Write;

// What a list of spans holds before.
const FILL: u32 = 0xeeeeeeee;

// `same` where the list is as it was, from a place on, else `changed`.
fn show_same(out: &mut impl Write, list: &[u32], from: usize) -> io::Result<()> {
    if list.iter().skip(from).all(|number| *number == FILL) {
        write!(out, "same ")
    } else {
        write!(out, "changed ")
    }
}

// Finding in a reading, into a list with room for so many numbers: `found COUNT` and the numbers, behind `same` where the list is as it was behind them; or a refusal.
pub fn found(alloc: Global, out: &mut impl Write, case: &Case, rules: Rules) -> io::Result<()> {
    let mut list = vec![in alloc; FILL; case.room]?;
    match find(rules, &case.text, &case.flags, &mut list) {
        Ok(count) => {
            let numbers = count.saturating_mul(SPAN_NUMBERS);
            show_same(out, &list, numbers)?;
            write!(out, "found {count}")?;
            for number in list.iter().take(numbers) {
                write!(out, " {number}")?;
            }
            Ok(())
        }
        Err(refusal) => {
            show_same(out, &list, 0)?;
            write!(out, "{refusal}")
        }
    }
}

// The spans that a case gives.
fn given(alloc: Global, case: &Case) -> Result<Vec<u32>, AllocError> {
    case.flags
        .iter()
        .map(|digit| u32::from(*digit))
        .collect(alloc)
}

// Showing beside spans: `written LENGTH BYTES`, as of the filter.
pub fn shown(alloc: Global, out: &mut impl Write, case: &Case) -> io::Result<()> {
    let mut buffer = case.buffer(alloc)?;
    let answer = show(&case.text, &given(alloc, case)?, &mut buffer);
    show_written(out, answer, &buffer)
}

// A stretch: `part START LENGTH BYTES`, the bytes with escapes.
pub fn part(alloc: Global, out: &mut impl Write, case: &Case) -> io::Result<()> {
    let spans = given(alloc, case)?;
    let part = stretch_part(&case.text, &spans, case.index);
    write!(out, "part {} {} ", part.start, part.length)?;
    show_bytes(out, stretch(&case.text, &spans, case.index))
}
