// Old traces across and back. First the refusals and the length, then the writing.
ghost use Rattle.std.specs.Prelude.{◌≡◌, ◌≤◌, length};
ghost use Rattle.lexical.specs.Buffer.{Written};
ghost use Rattle.rules.specs.Trace.{wide, traceBytes};
ghost use Rattle.rules.specs.Refusal.{outputRefusal};
ghost use Rattle.rules.specs.Output.{outputOf, Writes};
ghost use Rattle.records.specs.Answer.{bytesOf, recordOf};
ghost use Rattle.records.specs.Records.{records, traceRefusal};
ghost use Rattle.records.specs.Conversion.{isOver, someOver, widenTrace, widenBuffer, narrowTrace, narrowBuffer};

use crate::kept::check_trace;
use crate::reader::{
    LAST_EVENT, LAST_KIND, Record, Width, behind_record, first_record, record_length,
};
use crate::writer::put_record;
use rules::refusal::Refusal;

// The largest number that two bytes hold.
const NARROW_MOST: usize = 65535;

// Whether a field of a record needs more than two bytes.
fn is_over(given: Record) -> bool
    ensures { result ≡ isOver (recordOf given) }
{
    match given {
        Record::Event {
            line,
            column,
            index,
            ..
        } => (NARROW_MOST < line) | ((NARROW_MOST < column) | (NARROW_MOST < index)),
        Record::Last { stop, .. } => NARROW_MOST < stop,
    }
}

// Whether a record of a wide trace that is taken has such a field.
fn some_over(trace: &[u8]) -> bool
    requires { traceRefusal wide trace.now ≡ 0 }
    ensures { result ≡ someOver (records wide trace.now) }
{
    let mut rest = trace;
    while !rest.is_empty() {
        if is_over(first_record(rest, Width::Wide)) {
            return true;
        }
        rest = behind_record(rest, Width::Wide);
    }
    false
}

// The length of a trace that is taken with fields of another width: all its records but the last, which is shorter, are events.
fn converted_length(trace: &[u8], from: Width, to: Width) -> usize
    requires taken { traceRefusal (bytesOf from) trace.now ≡ 0 }
    ensures { result ≡ length (traceBytes (bytesOf to) (records (bytesOf from) trace.now)) }
{
    let events = trace.len() / record_length(LAST_EVENT, from);
    events * record_length(LAST_EVENT, to) + record_length(LAST_KIND, to)
}

// The records with fields of another width.
fn write_records(trace: &[u8], from: Width, to: Width, out: &mut [u8])
    requires taken { traceRefusal (bytesOf from) trace.now ≡ 0 }
    requires room { length (traceBytes (bytesOf to) (records (bytesOf from) trace.now)) ≤ length out.old }
    ensures { Written out.old 0 (traceBytes (bytesOf to) (records (bytesOf from) trace.now)) out.new }
{
    let mut rest = trace;
    let mut put = 0;
    while !rest.is_empty() {
        put_record(out, put, to, first_record(rest, from));
        put += record_length(rest[0], to);
        rest = behind_record(rest, from);
    }
}

// A trace that is taken, with fields of another width, or the refusal for want of room.
fn convert(trace: &[u8], from: Width, to: Width, out: &mut [u8]) -> Result<usize, Refusal>
    requires taken { traceRefusal (bytesOf from) trace.now ≡ 0 }
    ensures { Writes (outputRefusal 0 (length out.old) (traceBytes (bytesOf to) (records (bytesOf from) trace.now))) (traceBytes (bytesOf to) (records (bytesOf from) trace.now)) out.old result out.new }
{
    let length = converted_length(trace, from, to);
    if out.len() < length {
        return Err(Refusal::NoRoom);
    }
    write_records(trace, from, to, out);
    Ok(length)
}

// Narrow to wide.
pub fn widen_trace(trace: &[u8], out: &mut [u8]) -> Result<usize, Refusal>
    ensures answer { outputOf result ≡ widenTrace trace.now (length out.old) }
    ensures buffer { out.new ≡ widenBuffer trace.now out.old }
{
    check_trace(trace, Width::Narrow)?;
    convert(trace, Width::Narrow, Width::Wide, out)
}

// Wide to narrow.
pub fn narrow_trace(trace: &[u8], out: &mut [u8]) -> Result<usize, Refusal>
    ensures answer { outputOf result ≡ narrowTrace trace.now (length out.old) }
    ensures buffer { out.new ≡ narrowBuffer trace.now out.old }
{
    check_trace(trace, Width::Wide)?;
    if some_over(trace) {
        return Err(Refusal::NotNarrow);
    }
    convert(trace, Width::Wide, Width::Narrow, out)
}
