// Cases of a line.
use crate::case::Case;
use lexical::constant::{block_place, raw_place};
use lexical::event::Point;
use lexical::line::is_blank;
use std::io;
use std::io::Write;

// `block PLACE`, `raw PLACE` or `none`: the list of names that has it, and its place there.
fn show_place(out: &mut impl Write, name: &[u8]) -> io::Result<()> {
    if let Some(block) = block_place(name) {
        write!(out, "block {block}")
    } else if let Some(raw) = raw_place(name) {
        write!(out, "raw {raw}")
    } else {
        write!(out, "none")
    }
}

// The list of names with the place in it, the column at the end, and `blank` where it is.
pub fn line(out: &mut impl Write, case: &Case) -> io::Result<()> {
    let text = &case.text;
    show_place(out, text)?;
    let column = Point::start().move_to(text, text.len()).column;
    let blank = if is_blank(text, 0) { " blank" } else { "" };
    write!(out, " {column}{blank}")
}
