// Finding first, and showing afterwards.
ghost use Rattle.std.specs.Prelude.{◌≡◌, length};
ghost use Rattle.rules.specs.Reading.{crate as ofCrate, standard};
ghost use Rattle.rules.specs.Withhold.{outside, written};
ghost use Rattle.rules.specs.Output.{outputOf};
ghost use Rattle.rules.specs.Spans.{foundSpans, find as findOf, findRefusal, asPieces, show as showOf, showRefusal, stretchPart};
ghost use Rattle.spans.specs.Answer.{partIs};
ghost use Rattle.foringamo.specs.Result.{spansResult, writtenResult, partResult};

use crate::written::WrittenResult;
use rules::refusal::Refusal;
use rules::{crate_rules, standard_rules};
use screen::find::find;
use spans::show::show;
use spans::stretch::{Part, stretch_part};

// What finding gives.
#[repr(C)]
#[derive(Clone, Copy, Debug, PartialEq, Eq)]
pub struct SpansResult {
    // 0: not refused.
    pub refusal: u8,
    // How many spans were written.
    pub count: usize,
}

// A part of a bulletin.
#[repr(C)]
#[derive(Clone, Copy, Debug, PartialEq, Eq)]
pub struct PartResult {
    pub start: usize,
    pub length: usize,
}

// The answer of finding, as the interface gives it.
impl From<Result<usize, Refusal>> for SpansResult {
    ghost from_gives = { λ answer given. given ≡ spansResult (outputOf answer) };

    fn from(answer: Result<usize, Refusal>) -> SpansResult {
        match answer {
            Ok(count) => SpansResult { refusal: 0, count },
            Err(refusal) => SpansResult {
                refusal: u8::from(refusal),
                count: 0,
            },
        }
    }
}

impl From<Part> for PartResult {
    ghost from_gives = { λ part given. given ≡ partResult (partIs part) };

    fn from(part: Part) -> PartResult {
        PartResult {
            start: part.start,
            length: part.length,
        }
    }
}

// The span of each piece that is withheld.
#[unsafe(no_mangle)]
pub extern "C" fn foringamo_find(bulletin: &[u8], flags: &[u8], spans: &mut [u32]) -> SpansResult
    ensures answer { result ≡ spansResult (findOf ofCrate bulletin.now flags.now (length spans.old)) }
    ensures list { spans.new ≡ written (findRefusal ofCrate bulletin.now flags.now (length spans.old)) (foundSpans ofCrate bulletin.now flags.now) spans.old }
{
    SpansResult::from(find(crate_rules(), bulletin, flags, spans))
}

// The span of each piece that is withheld by the standard.
#[unsafe(no_mangle)]
pub extern "C" fn foringamo_standard_find(
    bulletin: &[u8],
    flags: &[u8],
    spans: &mut [u32],
) -> SpansResult
    ensures answer { result ≡ spansResult (findOf standard bulletin.now flags.now (length spans.old)) }
    ensures list { spans.new ≡ written (findRefusal standard bulletin.now flags.now (length spans.old)) (foundSpans standard bulletin.now flags.now) spans.old }
{
    SpansResult::from(find(standard_rules(), bulletin, flags, spans))
}

// Shows a bulletin beside the spans given.
#[unsafe(no_mangle)]
pub extern "C" fn foringamo_show(bulletin: &[u8], spans: &[u32], out: &mut [u8]) -> WrittenResult
    ensures answer { result ≡ writtenResult (showOf bulletin.now spans.now (length out.old)) }
    ensures buffer { out.new ≡ written (showRefusal bulletin.now spans.now (length out.old)) (outside 0 (asPieces spans.now) bulletin.now) out.old }
{
    WrittenResult::from(show(bulletin, spans, out))
}

// The stretch of a number, counted from 0.
#[unsafe(no_mangle)]
pub extern "C" fn foringamo_stretch(bulletin: &[u8], spans: &[u32], number: usize) -> PartResult
    ensures { result ≡ partResult (stretchPart bulletin.now spans.now number) }
{
    PartResult::from(stretch_part(bulletin, spans, number))
}
