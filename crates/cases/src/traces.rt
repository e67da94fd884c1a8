// Cases of traces, written, converted and read.
use crate::case::Case;
use records::convert::{narrow_trace, widen_trace};
use records::reader::{Record, read_trace};
use rules::refusal::Refusal;
use std::alloc::Global;
use std::io;
use std::io::Write;
use trace::block::block_trace;
use trace::tracer::inline_trace;

// `traced LENGTH` or `refused NUMBER`, and the buffer, two hexadecimal digits for each byte.
pub fn show_trace(
    out: &mut impl Write,
    answer: Result<usize, Refusal>,
    buffer: &[u8],
) -> io::Result<()> {
    match answer {
        Ok(length) => write!(out, "traced {length} ")?,
        Err(refusal) => write!(out, "{refusal} ")?,
    }
    for byte in buffer {
        write!(out, "{byte:02x}")?;
    }
    Ok(())
}

// What is written for the case: the trace of the inline scan, whose carry is its one flag; that of the block scan; the text, a narrow trace, with wide fields; the
// text, a wide trace, with narrow fields.
pub fn inline(case: &Case, buffer: &mut [u8]) -> Result<usize, Refusal> {
    inline_trace(&case.text, case.index, case.digit(), buffer)
}

pub fn block(case: &Case, buffer: &mut [u8]) -> Result<usize, Refusal> {
    block_trace(&case.text, &case.flags, case.index, buffer)
}

pub fn widened(case: &Case, buffer: &mut [u8]) -> Result<usize, Refusal> {
    widen_trace(&case.text, buffer)
}

pub fn narrowed(case: &Case, buffer: &mut [u8]) -> Result<usize, Refusal> {
    narrow_trace(&case.text, buffer)
}

// What one of these writes for the case, into a buffer of its room.
pub(crate) fn written<F: FnOnce(&Case, &mut [u8]) -> Result<usize, Refusal>>(
    alloc: Global,
    out: &mut impl Write,
    case: &Case,
    entry: F,
) -> io::Result<()>
    requires { F.IsAlwaysCallable entry }
{
    let mut buffer = case.buffer(alloc)?;
    let answer = entry(case, &mut buffer);
    show_trace(out, answer, &buffer)
}

// `event KIND LINE COLUMN INDEX VS` or `last KIND STOP VALUE`.
fn show_record(out: &mut impl Write, record: Record) -> io::Result<()> {
    let kind = record.number();
    match record {
        Record::Event {
            line,
            column,
            index,
            vs,
            ..
        } => write!(out, "event {kind} {line} {column} {index} {vs}"),
        Record::Last { stop, value, .. } => write!(out, "last {kind} {stop} {value}"),
    }
}

// The record whose number is the index, or `refused NUMBER`.
pub fn record(out: &mut impl Write, case: &Case) -> io::Result<()> {
    match read_trace(&case.text, case.index) {
        Ok(record) => show_record(out, record),
        Err(refusal) => write!(out, "{refusal}"),
    }
}
