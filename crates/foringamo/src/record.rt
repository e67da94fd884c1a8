// Reading a trace.
ghost use Rattle.std.specs.Prelude.{◌≡◌};
ghost use Rattle.rules.specs.Trace.{wide, readTrace};
ghost use Rattle.records.specs.Answer.{recordOf, readOf};
ghost use Rattle.foringamo.specs.Result.{recordResult};

use records::reader::{Record, read_trace};
use rules::refusal::Refusal;

// A record of a trace.
#[repr(C)]
#[derive(Clone, Copy, Debug, PartialEq, Eq)]
pub struct RecordResult {
    // 0: not refused.
    pub refusal: u8,
    // 1 to 12: an event. 13, 14: the last record.
    pub kind: u8,
    // Of an event vs, of 13 the carry, of 14 the block kind.
    pub last: u8,
    // Of an event.
    pub line: usize,
    pub column: usize,
    // Of an event the index, of the last record the stop.
    pub index: usize,
}

// A record, as the interface gives it.
fn record_result(given: Record) -> RecordResult
    ensures { result ≡ recordResult (recordOf given) }
{
    let kind = given.number();
    match given {
        Record::Event {
            line,
            column,
            index,
            vs,
            ..
        } => RecordResult {
            refusal: 0,
            kind,
            last: vs,
            line,
            column,
            index,
        },
        Record::Last { stop, value, .. } => RecordResult {
            refusal: 0,
            kind,
            last: value,
            line: 0,
            column: 0,
            index: stop,
        },
    }
}

// The answer of reading a trace, as the interface gives it.
impl From<Result<Record, Refusal>> for RecordResult {
    ghost from_gives = { λ answer given. given ≡ recordResult (readOf answer) };

    fn from(answer: Result<Record, Refusal>) -> RecordResult {
        match answer {
            Ok(record) => record_result(record),
            Err(refusal) => RecordResult {
                refusal: u8::from(refusal),
                kind: 0,
                last: 0,
                line: 0,
                column: 0,
                index: 0,
            },
        }
    }
}

// The record of a number, counted from 0.
#[unsafe(no_mangle)]
pub extern "C" fn foringamo_read_trace(trace: &[u8], number: usize) -> RecordResult
    ensures { result ≡ recordResult (readTrace wide number trace.now) }
{
    RecordResult::from(read_trace(trace, number))
}
