// A list of spans, three numbers for each: start, stop, and 0 for inline or 1 for block.
ghost use Rattle.std.specs.Prelude.{◌≡◌, ◌&&◌, leb, ltb};
ghost use Rattle.rules.specs.Spans.{areSpans};
ghost use Rattle.spans.specs.List.{FirstSpan};

// How many numbers a span has.
pub const SPAN_NUMBERS: usize = 3;

// The numbers of a span.
#[derive(Clone, Copy)]
pub(crate) struct Span {
    pub start: usize,
    pub stop: usize,
    pub sort: usize,
}

// The first span of a list, and the list behind it.
pub(crate) fn first_span(list: &[u32]) -> Option<(Span, &[u32])>
    ensures { FirstSpan list.now result }
{
    match list {
        [start, stop, sort, rest @ ..] => Some((
            Span {
                start: *start as usize,
                stop: *stop as usize,
                sort: *sort as usize,
            },
            rest,
        )),
        _ => None,
    }
}

// Whether numbers are a span, from an index on and not past the end.
fn is_span(span: Span, from: usize, end: usize) -> bool
    ensures { result ≡ ((leb from span.start && ltb span.start span.stop) && (leb span.stop end && leb span.sort 1)) }
{
    ((from <= span.start) & (span.start < span.stop)) & ((span.stop <= end) & (span.sort <= 1))
}

// Whether a list is of whole spans, in order, none over another, each with a byte, none past the end, of kind 0 or 1.
pub(crate) fn are_spans(list: &[u32], end: usize) -> bool
    ensures { result ≡ areSpans 0 end list.now }
{
    let mut from = 0;
    let mut left = list;
    while let Some((span, rest)) = first_span(left) {
        if !is_span(span, from, end) {
            return false;
        }
        from = span.stop;
        left = rest;
    }
    left.is_empty()
}
