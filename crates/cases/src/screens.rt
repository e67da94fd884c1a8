// Cases of withholding and of the tag filter. The text is the bulletin.
use crate::case::{Case, is_as_it_was, output_buffer};
use lexical::slice::from_indices;
use rules::refusal::Refusal;
use rules::{Rules, crate_rules};
use screen::both::withhold_both;
use screen::withhold::{Withheld, withhold};
use spans::list::SPAN_NUMBERS;
use std::alloc::{AllocError, Global};
use std::io;
use std::io::Write;
use tagfilter::filter::filter;

// `same` where the output buffer is as it was, from an index on, else `changed`.
fn show_same(out: &mut impl Write, buffer: &[u8], from: usize) -> io::Result<()> {
    if is_as_it_was(from_indices(buffer, from, buffer.len())) {
        write!(out, "same ")
    } else {
        write!(out, "changed ")
    }
}

// Writes a byte, a line ending, tab or backslash as an escape.
fn show_byte(out: &mut impl Write, byte: u8) -> io::Result<()> {
    match byte {
        b'\n' => out.write_all(b"\\n"),
        b'\r' => out.write_all(b"\\r"),
        b'\t' => out.write_all(b"\\t"),
        b'\\' => out.write_all(b"\\\\"),
        _ => out.write_all(&[byte]),
    }
}

pub fn show_bytes(out: &mut impl Write, bytes: &[u8]) -> io::Result<()> {
    for byte in bytes {
        show_byte(out, *byte)?;
    }
    Ok(())
}

// `refused NUMBER`, behind `same` where the whole output buffer is as it was.
fn show_refused(out: &mut impl Write, refusal: Refusal, buffer: &[u8]) -> io::Result<()> {
    show_same(out, buffer, 0)?;
    write!(out, "{refusal}")
}

// What was withheld: `shown LENGTH PIECES BYTES`, the bytes with escapes, behind `same` where the output buffer is as it was behind them; or a refusal.
fn show_withheld(
    out: &mut impl Write,
    answer: Result<Withheld, Refusal>,
    buffer: &[u8],
) -> io::Result<()> {
    match answer {
        Ok(withheld) => {
            let length = withheld.length;
            show_same(out, buffer, length)?;
            write!(out, "shown {length} {} ", withheld.pieces)?;
            show_bytes(out, from_indices(buffer, 0, length))
        }
        Err(refusal) => show_refused(out, refusal, buffer),
    }
}

// A list with room for all spans of a bulletin.
fn list_for(alloc: Global, bulletin: &[u8]) -> Result<Vec<u32>, AllocError> {
    vec![in alloc; 0; bulletin.len().saturating_mul(SPAN_NUMBERS)]
}

// Withholding in a reading, with room for all spans.
pub fn withheld(alloc: Global, out: &mut impl Write, case: &Case, rules: Rules) -> io::Result<()> {
    let mut list = list_for(alloc, &case.text)?;
    let mut buffer = case.buffer(alloc)?;
    let answer = withhold(rules, &case.text, &case.flags, &mut list, &mut buffer);
    show_withheld(out, answer, &buffer)
}

// Two runs of withholding in a reading, with room for all: the first takes the text up to the index, and the second what is behind. Their answers, with ` and ` between.
pub fn both(alloc: Global, out: &mut impl Write, case: &Case, rules: Rules) -> io::Result<()> {
    let one = from_indices(&case.text, 0, case.index);
    let two = from_indices(&case.text, case.index, case.text.len());
    let mut first_list = list_for(alloc, one)?;
    let mut first = output_buffer(alloc, one.len())?;
    let mut second_list = list_for(alloc, two)?;
    let mut second = output_buffer(alloc, two.len())?;
    let both = withhold_both(
        rules,
        one,
        two,
        &case.flags,
        &mut first_list,
        &mut first,
        &mut second_list,
        &mut second,
    );
    show_withheld(out, both.one, &first)?;
    write!(out, " and ")?;
    show_withheld(out, both.two, &second)
}

// What was written: `written LENGTH BYTES`, the bytes with escapes, behind `same` where the output buffer is as it was behind them; or a refusal.
pub fn show_written(
    out: &mut impl Write,
    answer: Result<usize, Refusal>,
    buffer: &[u8],
) -> io::Result<()> {
    match answer {
        Ok(length) => {
            show_same(out, buffer, length)?;
            write!(out, "written {length} ")?;
            show_bytes(out, from_indices(buffer, 0, length))
        }
        Err(refusal) => show_refused(out, refusal, buffer),
    }
}

// The tag filter.
pub fn filtered(alloc: Global, out: &mut impl Write, case: &Case) -> io::Result<()> {
    let mut buffer = case.buffer(alloc)?;
    let answer = filter(crate_rules(), &case.text, &case.flags, &mut buffer);
    show_written(out, answer, &buffer)
}
