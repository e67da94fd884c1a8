// Shows the bytes of a bulletin beside given spans.
ghost use Rattle.std.specs.Prelude.{◌≡◌, ◌≤◌, true, length};
ghost use Rattle.rules.specs.Withhold.{outside, written};
ghost use Rattle.rules.specs.Output.{outputOf};
ghost use Rattle.rules.specs.Refusal.{refusalOf};
ghost use Rattle.rules.specs.Spans.{areSpans, asPieces, spansRefusal, showRefusal, show as showOf};

use crate::list::{are_spans, first_span};
use lexical::constant::is_over_limit;
use lexical::copy::copy_part;
use rules::refusal::Refusal;

// Whether a bulletin and spans are refused, and by what.
pub(crate) fn check_spans(bulletin: &[u8], spans: &[u32]) -> Result<(), Refusal>
    ensures { refusalOf result ≡ spansRefusal bulletin.now spans.now }
{
    if is_over_limit(bulletin) {
        return Err(Refusal::TooLong);
    }
    if !are_spans(spans, bulletin.len()) {
        return Err(Refusal::WrongSpans);
    }
    Ok(())
}

// How many bytes stand beside spans that are not refused.
fn beside_length(bulletin: &[u8], spans: &[u32]) -> usize
    requires { areSpans 0 (length bulletin.now) spans.now ≡ true }
    ensures { result ≡ length (outside 0 (asPieces spans.now) bulletin.now) }
{
    let mut from = 0;
    let mut size = 0;
    let mut left = spans;
    while let Some((span, rest)) = first_span(left) {
        size += span.start - from;
        from = span.stop;
        left = rest;
    }
    size + (bulletin.len() - from)
}

// Writes the bytes beside spans that are not refused to the front of a buffer that has room for them.
fn write_beside(bulletin: &[u8], spans: &[u32], out: &mut [u8])
    requires are_spans { areSpans 0 (length bulletin.now) spans.now ≡ true }
    requires room { length (outside 0 (asPieces spans.now) bulletin.now) ≤ length out.old }
    ensures { out.new ≡ written 0 (outside 0 (asPieces spans.now) bulletin.now) out.old }
{
    let mut from = 0;
    let mut size = 0;
    let mut left = spans;
    while let Some((span, rest)) = first_span(left) {
        copy_part(bulletin, from, span.start, out, size);
        size += span.start - from;
        from = span.stop;
        left = rest;
    }
    copy_part(bulletin, from, bulletin.len(), out, size);
}

// Shows, in order, the bytes of a bulletin outside the spans given, and gives their number.
pub fn show(bulletin: &[u8], spans: &[u32], out: &mut [u8]) -> Result<usize, Refusal>
    ensures answer { outputOf result ≡ showOf bulletin.now spans.now (length out.old) }
    ensures buffer { out.new ≡ written (showRefusal bulletin.now spans.now (length out.old)) (outside 0 (asPieces spans.now) bulletin.now) out.old }
{
    check_spans(bulletin, spans)?;
    let length = beside_length(bulletin, spans);
    if out.len() < length {
        return Err(Refusal::NoRoom);
    }
    write_beside(bulletin, spans, out);
    Ok(length)
}
