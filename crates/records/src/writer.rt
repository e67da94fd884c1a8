// Writing a record into a lent buffer.
ghost use Rattle.std.specs.Prelude.{◌≡◌, ◌+◌, ◌≤◌, leb, length};
ghost use Rattle.rules.specs.Trace.{wide, field, eventRecord, lastRecord, recordBytes};
ghost use Rattle.lexical.specs.Buffer.{Written};
ghost use Rattle.records.specs.Answer.{bytesOf, recordOf};
ghost use Rattle.records.specs.Writing.{placed};

use crate::reader::{Record, Width};

// The bytes of a wide record of an event, and of a wide last one.
pub const EVENT_LENGTH: usize = 2 + 3 * Width::Wide as usize;

pub const LAST_LENGTH: usize = 2 + Width::Wide as usize;

// The lowest bytes of a number, low first.
fn write_field(out: &mut [u8], at: usize, width: Width, value: usize)
    requires { at + bytesOf width ≤ length out.old }
    ensures { Written out.old at (field (bytesOf width) value) out.new }
{
    let bytes = value.to_le_bytes();
    match width {
        Width::Narrow => out[at..at + 2].copy_from_slice(&bytes[..2]),
        Width::Wide => out[at..at + 4].copy_from_slice(&bytes[..4]),
    }
}

// The bytes of an event where there is room for them, of any number.
#[tactic(auto, using(crate::proofs::Stores::room_stays))]
fn put_event(
    out: &mut [u8],
    at: usize,
    width: Width,
    number: u8,
    line: usize,
    column: usize,
    index: usize,
    vs: u8,
)
    requires { at + length (recordBytes (bytesOf width) (eventRecord number line column index vs)) ≤ length out.old }
    ensures { Written out.old at (recordBytes (bytesOf width) (eventRecord number line column index vs)) out.new }
{
    let from = at + 1;
    let size = width.bytes();
    out[at] = number;
    write_field(out, from, width, line);
    write_field(out, from + size, width, column);
    write_field(out, from + 2 * size, width, index);
    out[from + 3 * size] = vs;
}

// The bytes of a last record likewise.
#[tactic(auto, using(crate::proofs::Stores::room_stays))]
fn put_last(out: &mut [u8], at: usize, width: Width, number: u8, stop: usize, value: u8)
    requires { at + length (recordBytes (bytesOf width) (lastRecord number stop value)) ≤ length out.old }
    ensures { Written out.old at (recordBytes (bytesOf width) (lastRecord number stop value)) out.new }
{
    let from = at + 1;
    let size = width.bytes();
    out[at] = number;
    write_field(out, from, width, stop);
    out[from + size] = value;
}

// A record where there is room for it.
pub(crate) fn put_record(out: &mut [u8], at: usize, width: Width, given: Record)
    requires { at + length (recordBytes (bytesOf width) (recordOf given)) ≤ length out.old }
    ensures { Written out.old at (recordBytes (bytesOf width) (recordOf given)) out.new }
{
    let number = given.number();
    match given {
        Record::Event {
            line,
            column,
            index,
            vs,
            ..
        } => {
            put_event(out, at, width, number, line, column, index, vs);
        }
        Record::Last { stop, value, .. } => {
            put_last(out, at, width, number, stop, value);
        }
    }
}

// Whether so many bytes have room from an index on.
fn has_room(room: usize, at: usize, length: usize) -> bool
    ensures { result ≡ leb (at + length) room }
{
    if room < length {
        return false;
    }
    at <= room - length
}

// A wide event from an index on; nothing where there is no room for all of it. Of any number: a record that reading would refuse, too.
#[tactic(auto, using(crate::proofs::Stores::room_stays))]
pub fn write_event(
    out: &mut [u8],
    at: usize,
    number: u8,
    line: usize,
    column: usize,
    index: usize,
    vs: u8,
)
    ensures { Written out.old at (placed (length out.old) at (recordBytes wide (eventRecord number line column index vs))) out.new }
{
    if has_room(out.len(), at, EVENT_LENGTH) {
        put_event(out, at, Width::Wide, number, line, column, index, vs);
    }
}

// A wide last record likewise, of any number.
#[tactic(auto, using(crate::proofs::Stores::room_stays))]
pub fn write_last(out: &mut [u8], at: usize, number: u8, stop: usize, value: u8)
    ensures { Written out.old at (placed (length out.old) at (recordBytes wide (lastRecord number stop value))) out.new }
{
    if has_room(out.len(), at, LAST_LENGTH) {
        put_last(out, at, Width::Wide, number, stop, value);
    }
}

// A wide record from an index on; nothing where there is no room for all of it.
pub fn write_record(out: &mut [u8], at: usize, given: Record)
    ensures { Written out.old at (placed (length out.old) at (recordBytes wide (recordOf given))) out.new }
{
    let number = given.number();
    match given {
        Record::Event {
            line,
            column,
            index,
            vs,
            ..
        } => {
            write_event(out, at, number, line, column, index, vs);
        }
        Record::Last { stop, value, .. } => {
            write_last(out, at, number, stop, value);
        }
    }
}
