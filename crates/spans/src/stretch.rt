// The stretches of a bulletin between its spans.
ghost use Rattle.std.specs.Prelude.{◌≡◌, true, length};
ghost use Rattle.rules.specs.Spans.{areSpans, partOf, stretchPart, stretch as stretchOf};
ghost use Rattle.spans.specs.Answer.{partIs};

use crate::list::first_span;
use crate::show::check_spans;
use lexical::slice::from_indices;

// A part of a bulletin: its first index and its length.
#[derive(Clone, Copy, Debug, PartialEq, Eq)]
pub struct Part {
    pub start: usize,
    pub length: usize,
}

// No part.
const NO_PART: Part = Part {
    start: 0,
    length: 0,
};

// Stretch n of spans that are not refused: before span n, or after the last.
fn part_of(spans: &[u32], end: usize, number: usize) -> Part
    requires { areSpans 0 end spans.now ≡ true }
    ensures { partIs result ≡ partOf number 0 end spans.now }
{
    let mut from = 0;
    let mut ahead = number;
    let mut left = spans;
    while let Some((span, rest)) = first_span(left) {
        if ahead == 0 {
            return Part {
                start: from,
                length: span.start - from,
            };
        }
        from = span.stop;
        ahead -= 1;
        left = rest;
    }
    if ahead == 0 {
        return Part {
            start: from,
            length: end - from,
        };
    }
    NO_PART
}

// Stretch n: before span n, or after the last; empty for any other input.
pub fn stretch_part(bulletin: &[u8], spans: &[u32], number: usize) -> Part
    ensures { partIs result ≡ stretchPart bulletin.now spans.now number }
{
    match check_spans(bulletin, spans) {
        Ok(()) => part_of(spans, bulletin.len(), number),
        Err(_) => NO_PART,
    }
}

// The bytes of stretch n, as a part of the bulletin itself.
pub fn stretch<'a>(bulletin: &'a [u8], spans: &[u32], number: usize) -> &'a [u8]
    ensures { result.now ≡ stretchOf bulletin.now spans.now number }
{
    let part = stretch_part(bulletin, spans, number);
    from_indices(bulletin, part.start, part.start + part.length)
}
