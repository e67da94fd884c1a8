// Whether a trace was kept whole.
ghost use Rattle.std.specs.Prelude.{◌≡◌};
ghost use Rattle.rules.specs.Refusal.{refusalOf};
ghost use Rattle.records.specs.Answer.{bytesOf};
ghost use Rattle.records.specs.Records.{records, badRecord, endsOnce, traceRefusal};

use crate::reader::{LAST_EVENT, Width, behind_record, check_record};
use rules::refusal::Refusal;

// What is wrong with the first bad record.
fn check_records(trace: &[u8], width: Width) -> Result<(), Refusal>
    ensures { refusalOf result ≡ badRecord (records (bytesOf width) trace.now) }
{
    let mut rest = trace;
    while !rest.is_empty() {
        check_record(rest, width)?;
        rest = behind_record(rest, width);
    }
    Ok(())
}

// Whether the first final record of a trace with no bad one stands at its end.
fn ends_once(trace: &[u8], width: Width) -> bool
    requires { badRecord (records (bytesOf width) trace.now) ≡ 0 }
    ensures { result ≡ endsOnce (records (bytesOf width) trace.now) }
{
    let mut rest = trace;
    while !rest.is_empty() {
        let number = rest[0];
        rest = behind_record(rest, width);
        if LAST_EVENT < number {
            return rest.is_empty();
        }
    }
    false
}

// Whether a trace is whole: its last record, and no other, is a final one.
pub(crate) fn check_trace(trace: &[u8], width: Width) -> Result<(), Refusal>
    ensures { refusalOf result ≡ traceRefusal (bytesOf width) trace.now }
{
    check_records(trace, width)?;
    if ends_once(trace, width) {
        return Ok(());
    }
    Err(Refusal::NotEnded)
}
