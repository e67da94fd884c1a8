// Cases of both scans.
use crate::case::Case;
use crate::show::yes_or_no;
use flow::block::Block;
use flow::scan::block_scan;
use html::scan::inline_scan;
use html::tokenizer::Inline;
use rules::Rules;
use rules::refusal::Refusal;
use std::io;
use std::io::Write;

// The place of what has no name.
const NO_NAME: u8 = 255;

// `found STOP CARRY` or `none CARRY`.
pub fn show_inline(out: &mut impl Write, inline: Inline) -> io::Result<()> {
    let carry = inline.carry;
    match inline.stop {
        Some(stop) => write!(out, "found {stop} {carry}"),
        None => write!(out, "none {carry}"),
    }
}

// The same, or `refused NUMBER CARRY`, the carry as passed in.
pub fn show_scanned(
    out: &mut impl Write,
    answer: Result<Inline, Refusal>,
    carry: u8,
) -> io::Result<()> {
    match answer {
        Ok(inline) => show_inline(out, inline),
        Err(refusal) => write!(out, "{refusal} {carry}"),
    }
}

// What of a found block is shown, behind `found KIND`.
#[derive(Clone, Copy)]
pub enum Part {
    // `STOP yes` where a closer was met, `STOP no` where none was.
    Stop,
    // `NAME`.
    Name,
    // `CLOSER STOP`.
    Closer,
}

fn show_found(out: &mut impl Write, block: Block, part: Part) -> io::Result<()> {
    let kind = u8::from(block.kind);
    let stop = block.stop;
    match part {
        Part::Stop => write!(
            out,
            "found {kind} {stop} {}",
            yes_or_no(block.closer.is_some())
        ),
        Part::Name => write!(out, "found {kind} {}", block.name.unwrap_or(NO_NAME)),
        Part::Closer => write!(out, "found {kind} {} {stop}", block.closer.unwrap_or(stop)),
    }
}

// The inline scan in a reading; the carry is the case's one flag.
pub fn inline(out: &mut impl Write, case: &Case, rules: Rules) -> io::Result<()> {
    let carry = case.digit();
    show_scanned(
        out,
        inline_scan(rules, &case.text, case.index, carry),
        carry,
    )
}

// The block scan in a reading: what is found, `none` or `refused NUMBER`.
pub fn block(out: &mut impl Write, case: &Case, rules: Rules, part: Part) -> io::Result<()> {
    match block_scan(rules, &case.text, &case.flags, case.index) {
        Ok(Some(block)) => show_found(out, block, part),
        Ok(None) => write!(out, "none"),
        Err(refusal) => write!(out, "{refusal}"),
    }
}
