// Cases of the reader and of the lent step.
use crate::case::Case;
use crate::scans::{show_inline, show_scanned};
use crate::show::yes_or_no;
use flow::html_flow::Kind;
use reader::slice::read_at;
use rules::Rules;
use std::io;
use std::io::Write;

// What the byte past the end is shown as.
const NO_BYTE: u16 = 256;

// A reader at an index scans and moves on: the answer, the index that it is moved to and the byte there, 256 past the end.
pub fn turn(out: &mut impl Write, case: &Case) -> io::Result<()> {
    let carry = case.digit();
    let turn = read_at(&case.text, case.index, carry);
    show_scanned(out, turn.answer, carry)?;
    write!(
        out,
        " {} {}",
        turn.index,
        turn.byte.map_or(NO_BYTE, u16::from)
    )
}

// A reader goes over the text from the index on: the index behind each piece that it finds, with carry 0.
pub fn pieces(out: &mut impl Write, case: &Case) -> io::Result<()> {
    let mut index = case.index;
    write!(out, "pieces")?;
    while index < case.text.len() {
        let stop = read_at(&case.text, index, 0).index;
        if stop > index {
            write!(out, " {stop}")?;
            index = stop;
        } else {
            index += 1;
        }
    }
    Ok(())
}

// The inline run by the lent step.
pub fn run(out: &mut impl Write, case: &Case, rules: Rules, carry: u8) -> io::Result<()> {
    show_inline(
        out,
        reader::html_text::inline_at(rules, &case.text, case.index, carry),
    )
}

// Whether a line of a block of the digit's kind has its closer, by the lent step.
pub fn closes(out: &mut impl Write, case: &Case, rules: Rules) -> io::Result<()> {
    let kind = Kind::try_from(case.digit()).unwrap_or(Kind::Complete);
    let has_closer = reader::html_flow::closes_line(rules, kind, &case.text);
    write!(out, "{}", yes_or_no(has_closer))
}
