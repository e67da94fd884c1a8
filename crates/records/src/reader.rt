// Reading a trace, record by record.
ghost use Rattle.std.specs.Prelude.{◌≡◌, ◌+◌, ◌≤◌, length, drop, slice_index};
ghost use Rattle.rules.specs.Trace.{wide, number as number_of, recordLength, recordRefusal, recordAt, readTrace};
ghost use Rattle.rules.specs.Refusal.{refusalOf};
ghost use Rattle.records.specs.Answer.{bytesOf, recordOf, numberOf, readOf};

use crate::event::{Form, Kind, Name, event_number, event_of, form_of};
use rules::refusal::Refusal;

// How many bytes line, column, index and stop have, low first: in the traces that are written today four, in old ones two.
#[derive(Clone, Copy, Debug, PartialEq, Eq)]
pub(crate) enum Width {
    Narrow = 2,
    Wide = 4,
}

impl Width {
    pub(crate) fn bytes(self) -> usize
        ensures is { result ≡ bytesOf self }
        ensures few { (2 ≤ result) × (result ≤ 4) }
    {
        self as usize
    }
}

// The last number of an event, and the last of all.
pub(crate) const LAST_EVENT: u8 = 12;

pub(crate) const LAST_KIND: u8 = 14;

// A record of a trace.
#[derive(Clone, Copy, Debug, PartialEq, Eq)]
pub enum Record {
    Event {
        kind: Kind,
        name: Name,
        line: usize,
        column: usize,
        index: usize,
        vs: u8,
    },
    // With the carry or the block kind.
    Last {
        form: Form,
        stop: usize,
        value: u8,
    },
}

impl Record {
    // Its first byte: of an event 1 to 12, of a last record 13 or 14.
    pub fn number(self) -> u8
        ensures { result ≡ numberOf self }
    {
        match self {
            Record::Event { kind, name, .. } => event_number(kind, name),
            Record::Last { form, .. } => form as u8,
        }
    }
}

// The number in the bytes from an index on.
fn read_field(trace: &[u8], at: usize, width: Width) -> usize
    requires { at + bytesOf width ≤ length trace.now }
    ensures { result ≡ number_of (bytesOf width) (drop at trace.now) }
{
    match width {
        Width::Narrow => u16::from_le_bytes([trace[at], trace[at + 1]]) as usize,
        Width::Wide => {
            u32::from_le_bytes([trace[at], trace[at + 1], trace[at + 2], trace[at + 3]]) as usize
        }
    }
}

// The length of a record of a kind.
pub(crate) fn record_length(kind: u8, width: Width) -> usize
    ensures { result ≡ recordLength (bytesOf width) kind }
{
    if kind <= LAST_EVENT {
        return 2 + 3 * width.bytes();
    }
    2 + width.bytes()
}

// Whether bytes begin with a record that is whole and of a kind.
pub(crate) fn check_record(bytes: &[u8], width: Width) -> Result<(), Refusal>
    ensures { refusalOf result ≡ recordRefusal (bytesOf width) bytes.now }
{
    if bytes.is_empty() {
        return Err(Refusal::CutOff);
    }
    let number = bytes[0];
    if (number == 0) | (LAST_KIND < number) {
        return Err(Refusal::WrongKind);
    }
    if bytes.len() < record_length(number, width) {
        return Err(Refusal::CutOff);
    }
    Ok(())
}

// The record that bytes begin with, where nothing is wrong with it.
#[tactic(auto, using(crate::proofs::Records::whole_there))]
pub(crate) fn first_record(bytes: &[u8], width: Width) -> Record
    requires { recordRefusal (bytesOf width) bytes.now ≡ 0 }
    ensures { recordOf result ≡ recordAt (bytesOf width) bytes.now }
{
    let number = bytes[0];
    let size = width.bytes();
    if number <= LAST_EVENT {
        let (kind, name) = event_of(number);
        return Record::Event {
            kind,
            name,
            line: read_field(bytes, 1, width),
            column: read_field(bytes, 1 + size, width),
            index: read_field(bytes, 1 + 2 * size, width),
            vs: bytes[1 + 3 * size],
        };
    }
    Record::Last {
        form: form_of(number),
        stop: read_field(bytes, 1, width),
        value: bytes[1 + size],
    }
}

// What stands behind it.
#[tactic(auto, using(crate::proofs::Records::whole_there))]
pub(crate) fn behind_record(bytes: &[u8], width: Width) -> &[u8]
    requires { recordRefusal (bytesOf width) bytes.now ≡ 0 }
    ensures { result.now ≡ drop (recordLength (bytesOf width) (slice_index bytes.now 0)) bytes.now }
{
    &bytes[record_length(bytes[0], width)..]
}

// The record of a number, counted from 0, of a wide trace. The first bad record on the way decides.
pub fn read_trace(trace: &[u8], number: usize) -> Result<Record, Refusal>
    ensures { readOf result ≡ readTrace wide number trace.now }
{
    let mut rest = trace;
    for _ in 0..number {
        check_record(rest, Width::Wide)?;
        rest = behind_record(rest, Width::Wide);
    }
    check_record(rest, Width::Wide)?;
    Ok(first_record(rest, Width::Wide))
}
