// The inline scan and its trace.
ghost use Rattle.std.specs.Prelude.{◌≡◌, length};
ghost use Rattle.rules.specs.Reading.{crate as ofCrate, standard};
ghost use Rattle.rules.specs.Scan.{inlineScan};
ghost use Rattle.html.specs.Answer.{inlineScanOf};
ghost use Rattle.trace.specs.Answer.{inlineTraced, inlineBuffer};
ghost use Rattle.foringamo.specs.Result.{inlineResult, writtenResult};

use crate::written::WrittenResult;
use html::scan::inline_scan;
use html::tokenizer::Inline;
use rules::refusal::Refusal;
use rules::{crate_rules, standard_rules};
use trace::tracer::inline_trace;

// What an inline scan gives.
#[repr(C)]
#[derive(Clone, Copy, Debug, PartialEq, Eq)]
pub struct InlineResult {
    // 0: not refused.
    pub refusal: u8,
    // 1: a piece was found.
    pub found: u8,
    pub carry: u8,
    pub stop: usize,
}

// The answer of an inline scan to which a carry was passed, as the interface gives it.
fn inline_result(answer: Result<Inline, Refusal>, carry: u8) -> InlineResult
    ensures { result ≡ inlineResult (inlineScanOf carry answer) }
{
    match answer {
        Ok(inline) => InlineResult {
            refusal: 0,
            found: inline.stop.is_some() as u8,
            carry: inline.carry,
            stop: inline.stop.unwrap_or(0),
        },
        Err(refusal) => InlineResult {
            refusal: u8::from(refusal),
            found: 0,
            carry,
            stop: 0,
        },
    }
}

// The piece that begins at an index.
#[unsafe(no_mangle)]
pub extern "C" fn foringamo_inline_scan(text: &[u8], index: usize, carry: u8) -> InlineResult
    ensures { result ≡ inlineResult (inlineScan ofCrate text.now index carry) }
{
    inline_result(inline_scan(crate_rules(), text, index, carry), carry)
}

// The piece that begins at an index by the standard.
#[unsafe(no_mangle)]
pub extern "C" fn foringamo_standard_inline_scan(
    text: &[u8],
    index: usize,
    carry: u8,
) -> InlineResult
    ensures { result ≡ inlineResult (inlineScan standard text.now index carry) }
{
    inline_result(inline_scan(standard_rules(), text, index, carry), carry)
}

// The trace of an inline scan.
#[unsafe(no_mangle)]
pub extern "C" fn foringamo_inline_trace(
    text: &[u8],
    index: usize,
    carry: u8,
    out: &mut [u8],
) -> WrittenResult
    ensures answer { result ≡ writtenResult (inlineTraced text.now index carry (length out.old)) }
    ensures buffer { out.new ≡ inlineBuffer text.now index carry out.old }
{
    WrittenResult::from(inline_trace(text, index, carry, out))
}
