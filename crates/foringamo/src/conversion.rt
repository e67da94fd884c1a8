// Old traces across and back.
ghost use Rattle.std.specs.Prelude.{◌≡◌, length};
ghost use Rattle.records.specs.Conversion.{widenTrace, widenBuffer, narrowTrace, narrowBuffer};
ghost use Rattle.foringamo.specs.Result.{writtenResult};

use crate::written::WrittenResult;
use records::convert::{narrow_trace, widen_trace};

// A narrow trace with wide fields.
#[unsafe(no_mangle)]
pub extern "C" fn foringamo_widen_trace(trace: &[u8], out: &mut [u8]) -> WrittenResult
    ensures answer { result ≡ writtenResult (widenTrace trace.now (length out.old)) }
    ensures buffer { out.new ≡ widenBuffer trace.now out.old }
{
    WrittenResult::from(widen_trace(trace, out))
}

// A wide trace with narrow fields.
#[unsafe(no_mangle)]
pub extern "C" fn foringamo_narrow_trace(trace: &[u8], out: &mut [u8]) -> WrittenResult
    ensures answer { result ≡ writtenResult (narrowTrace trace.now (length out.old)) }
    ensures buffer { out.new ≡ narrowBuffer trace.now out.old }
{
    WrittenResult::from(narrow_trace(trace, out))
}
