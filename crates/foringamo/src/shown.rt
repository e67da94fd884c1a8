// Withholding.
ghost use Rattle.std.specs.Prelude.{◌≡◌, length};
ghost use Rattle.rules.specs.Reading.{crate as ofCrate, standard};
ghost use Rattle.rules.specs.Withhold.{shown, written};
ghost use Rattle.rules.specs.Spans.{foundSpans, withhold as withholdOf, withholdRefusal};
ghost use Rattle.screen.specs.Answer.{shownOf};
ghost use Rattle.foringamo.specs.Result.{shownResult};

use rules::refusal::Refusal;
use rules::{crate_rules, standard_rules};
use screen::withhold::{Withheld, withhold};

// What withholding gives.
#[repr(C)]
#[derive(Clone, Copy, Debug, PartialEq, Eq)]
pub struct ShownResult {
    // 0: not refused.
    pub refusal: u8,
    // How many bytes are shown.
    pub length: usize,
    // How many blocks and inline pieces are withheld.
    pub pieces: usize,
}

// The answer of withholding, as the interface gives it.
impl From<Result<Withheld, Refusal>> for ShownResult {
    ghost from_gives = { λ answer given. given ≡ shownResult (shownOf answer) };

    fn from(answer: Result<Withheld, Refusal>) -> ShownResult {
        match answer {
            Ok(shown) => ShownResult {
                refusal: 0,
                length: shown.length,
                pieces: shown.pieces,
            },
            Err(refusal) => ShownResult {
                refusal: u8::from(refusal),
                length: 0,
                pieces: 0,
            },
        }
    }
}

// Shows a bulletin without its raw HTML, with the span of each piece that is withheld.
#[unsafe(no_mangle)]
pub extern "C" fn foringamo_withhold(
    bulletin: &[u8],
    flags: &[u8],
    spans: &mut [u32],
    out: &mut [u8],
) -> ShownResult
    ensures answer { result ≡ shownResult (withholdOf ofCrate bulletin.now flags.now (length spans.old) (length out.old)) }
    ensures list { spans.new ≡ written (withholdRefusal ofCrate bulletin.now flags.now (length spans.old) (length out.old)) (foundSpans ofCrate bulletin.now flags.now) spans.old }
    ensures buffer { out.new ≡ written (withholdRefusal ofCrate bulletin.now flags.now (length spans.old) (length out.old)) (shown ofCrate bulletin.now flags.now) out.old }
{
    ShownResult::from(withhold(crate_rules(), bulletin, flags, spans, out))
}

// The same by the standard.
#[unsafe(no_mangle)]
pub extern "C" fn foringamo_standard_withhold(
    bulletin: &[u8],
    flags: &[u8],
    spans: &mut [u32],
    out: &mut [u8],
) -> ShownResult
    ensures answer { result ≡ shownResult (withholdOf standard bulletin.now flags.now (length spans.old) (length out.old)) }
    ensures list { spans.new ≡ written (withholdRefusal standard bulletin.now flags.now (length spans.old) (length out.old)) (foundSpans standard bulletin.now flags.now) spans.old }
    ensures buffer { out.new ≡ written (withholdRefusal standard bulletin.now flags.now (length spans.old) (length out.old)) (shown standard bulletin.now flags.now) out.old }
{
    ShownResult::from(withhold(standard_rules(), bulletin, flags, spans, out))
}
