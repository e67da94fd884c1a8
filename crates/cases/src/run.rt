// Takes the cases on standard input, one to a line: a letter, which is the kind, and what is asked, in one of these forms.
//
// A text as it stands, behind a space:
//
//     n    a line: its list of names and its place there, the column at its end, whether it is blank (lines.rt)
//
// `INDEX FLAGS TEXT`, a space before each: a number in decimal digits, one digit for each flag, and a text in which `\n`, `\r`, `\t` and `\\` are LF, CR, tab and
// backslash. What takes no flags has one digit in their place.
//
//     i    the inline scan; the digit is the carry (scans.rt)
//     b    the block scan (scans.rt)
//     N    the block scan: the place of the name (scans.rt)
//     C    the block scan: where the closer begins (scans.rt)
//     j    the inline scan by the standard (scans.rt)
//     d    the block scan by the standard (scans.rt)
//     c    the block scan by the standard: where the closer begins (scans.rt)
//     r    a reader at the index scans, with the digit as carry, and moves on (readers.rt)
//     p    a reader goes over the text from the index on (readers.rt)
//     t    the inline run by the lent step, with the digit as carry and all eight changes (readers.rt)
//     T    what begins at the index, by the lent step with none of the changes (readers.rt)
//     f    whether a line of a block of the digit's kind has its closer, by the lent step with all eight changes (readers.rt)
//     F    the same with none of the changes (readers.rt)
//     q    the stretch of the index; the digits are the numbers of the spans (found.rt)
//     k    two runs of withholding: one of the text up to the index, and one of what is behind it, with the same flags (screens.rt)
//     K    two runs of withholding by the standard (screens.rt)
//
// `ROOM LENGTH FLAGS TEXT`, the same with two numbers; the text comes again and again up to the length:
//
//     w    withholding (screens.rt)
//     W    withholding by the standard (screens.rt)
//     g    GitHub's tag filter (screens.rt)
//     u    finding; the room is that of the list, in numbers (found.rt)
//     U    finding by the standard (found.rt)
//     o    showing beside spans; the digits are their numbers (found.rt)
//
// Hexadecimal: INDEX of three bytes, COUNT of one, ROOM of three, high byte first, as many flags as COUNT says, and the text. The carry of an inline scan is its
// one flag.
//
//     I    the inline trace into a buffer of that room (traces.rt)
//     B    the block trace likewise (traces.rt)
//     e    the record of a trace whose number is the index (traces.rt)
//     x    a narrow trace, taken wide into a buffer of that room (traces.rt)
//     X    a wide trace, taken narrow likewise (traces.rt)
//     s    the inline scan, its trace, and whether that comes back from narrow (recorded.rt)
//     l    the block scan likewise (recorded.rt)
//     S, L the same; the text is a length of three bytes and a byte, which comes again and again (recorded.rt)
//
// What is missing in a line is empty or 0. A new kind takes a letter, an arm of `answer` (and in another form than `INDEX FLAGS TEXT` its letter in `Case::new`), and
// a function in the file of its topic.
use crate::case::Case;
use crate::scans::Part;
use crate::{found, lines, readers, recorded, scans, screens, traces};
use rules::{crate_rules, standard_rules};
use std::alloc::Global;
use std::io;
use std::io::{BufRead, BufReader, BufWriter, Write};

// For a letter that no kind has, or none.
fn unknown(out: &mut impl Write) -> io::Result<()> {
    write!(out, "no such case")
}

// What a case asks, by its letter.
fn answer(alloc: Global, out: &mut impl Write, letter: u8, case: &Case) -> io::Result<()> {
    match letter {
        b'n' => lines::line(out, case),
        b'i' => scans::inline(out, case, crate_rules()),
        b'b' => scans::block(out, case, crate_rules(), Part::Stop),
        b'N' => scans::block(out, case, crate_rules(), Part::Name),
        b'C' => scans::block(out, case, crate_rules(), Part::Closer),
        b'j' => scans::inline(out, case, standard_rules()),
        b'd' => scans::block(out, case, standard_rules(), Part::Stop),
        b'c' => scans::block(out, case, standard_rules(), Part::Closer),
        b'r' => readers::turn(out, case),
        b'p' => readers::pieces(out, case),
        b't' => readers::run(out, case, crate_rules(), case.digit()),
        b'T' => readers::run(out, case, standard_rules(), 0),
        b'f' => readers::closes(out, case, crate_rules()),
        b'F' => readers::closes(out, case, standard_rules()),
        b'w' => screens::withheld(alloc, out, case, crate_rules()),
        b'W' => screens::withheld(alloc, out, case, standard_rules()),
        b'k' => screens::both(alloc, out, case, crate_rules()),
        b'K' => screens::both(alloc, out, case, standard_rules()),
        b'g' => screens::filtered(alloc, out, case),
        b'u' => found::found(alloc, out, case, crate_rules()),
        b'U' => found::found(alloc, out, case, standard_rules()),
        b'o' => found::shown(alloc, out, case),
        b'q' => found::part(alloc, out, case),
        b'I' => traces::written(alloc, out, case, traces::inline),
        b'B' => traces::written(alloc, out, case, traces::block),
        b'e' => traces::record(out, case),
        b'x' => traces::written(alloc, out, case, traces::widened),
        b'X' => traces::written(alloc, out, case, traces::narrowed),
        b's' | b'S' => recorded::inline(alloc, out, case),
        b'l' | b'L' => recorded::block(alloc, out, case),
        _ => unknown(out),
    }
}

// The answer to a case.
fn one(alloc: Global, out: &mut impl Write, line: &[u8]) -> io::Result<()> {
    match line.split_first() {
        Some((letter, asked)) => answer(alloc, out, *letter, &Case::new(alloc, *letter, asked)?),
        None => unknown(out),
    }
}

// Answers every case on standard input, a line each.
pub fn all(rt: &(impl Input + Print + AllocGlobal)) -> io::Result<()> {
    let alloc = rt.alloc();
    let mut out = BufWriter::new(alloc, io::writer(rt))?;
    for line in BufReader::new(alloc, rt.reader())?.split(alloc, b'\n') {
        one(alloc, &mut out, &line?)?;
        writeln!(out)?;
    }
    out.flush()
}
