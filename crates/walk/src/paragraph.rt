// Paragraphs: where one ends, and its inline pieces.
ghost use Rattle.std.specs.Prelude.{◌≡◌, false, ◌+◌, ◌-◌, ◌<◌, ◌≤◌, length, take, drop, reverse, ◌==◌};
ghost use Rattle.std.specs.List.{take_while};
ghost use Rattle.lexical.specs.Text.{pick};
ghost use Rattle.lexical.specs.Line.{lineLength};
ghost use Rattle.walk.specs.Closer.{Known};
ghost use Rattle.walk.specs.Remaining.{lineAt, oddAfter, untried, endsParagraph, ParagraphEnd, Attempt, NextInline};

use crate::bulletin::Bulletin;
use crate::closers::{Closers, Form};
use crate::pieces::Piece;
use flow::partial_non_lazy_continuation::next_number;
use flow::scan::block_at;
use html::scan::inline_at;
use lexical::line::{is_blank, line_end, next_line};
use lexical::slice::from_indices;
use rules::Rules;

// Where a paragraph ends, and the number of the line behind it.
#[derive(Clone, Copy)]
pub(crate) struct End {
    pub stop: usize,
    pub line: usize,
}

// A piece of a paragraph, with what is known of the closers behind it.
#[derive(Clone, Copy)]
pub(crate) struct Inlined {
    pub piece: Piece,
    pub closers: Closers,
}

impl<'a> Bulletin<'a> {
    // Whether the line at an index belongs to no paragraph: it is blank, or it opens a block.
    fn ends_paragraph(self, index: usize, line: usize) -> bool
        ensures { result ≡ endsParagraph self.entry.rules (lineAt self.entry.text.now self.entry.flags.now index line) }
    {
        is_blank(self.text, index)
            || block_at(self.rules, self.text, self.flags, index, line).is_some()
    }

    // The end of a paragraph from its line at an index on; the bytes before `from` are known to be of that line.
    pub(crate) fn paragraph_end(self, index: usize, line: usize, from: usize) -> End
        requires within { index ≤ length self.text.now }
        requires same_line { from + lineLength (drop from self.text.now) ≡ index + lineLength (drop index self.text.now) }
        ensures { ParagraphEnd self.entry index line result }
    {
        let mut stop = line_end(self.text, from);
        let mut number = next_number(self.flags, line);
        while stop < self.text.len() {
            let next = next_line(self.text, stop);
            if self.ends_paragraph(next, number) {
                return End { stop, line: number };
            }
            stop = line_end(self.text, next);
            number = next_number(self.flags, number);
        }
        End { stop, line: number }
    }
}

// How many backslashes a text ends with.
fn backslashes_behind(text: &[u8]) -> usize
    ensures { result ≡ length (take_while (λ b. b == 92) (reverse text.now)) }
{
    text.iter().rev().take_while(|b| **b == b'\\').count()
}

// Behind the first `<` of a paragraph where it is not tried, else at it.
pub(crate) fn past_escaped(text: &[u8], from: usize, opening: usize) -> usize
    requires { opening < length text.now }
    ensures { result ≡ opening + pick (oddAfter false (take (opening - from) (drop from text.now))) 1 0 }
{
    if backslashes_behind(from_indices(text, from, opening)) % 2 == 1 {
        return opening + 1;
    }
    opening
}

// The next `<` from an index on that follows no odd run of backslashes, counted back to the index; or the end.
fn next_open(text: &[u8], index: usize) -> usize
    ensures { result ≡ index + untried false (drop index text.now) }
{
    let mut odd = false;
    for i in index..text.len() {
        let byte = text[i];
        if (byte == b'<') & !odd {
            return i;
        }
        odd = (byte == b'\\') & !odd;
    }
    index.max(text.len())
}

// What begins at an index of a paragraph: where its piece ends; or there is none, and what is then known of the closers ahead. It is not read where its closer is
// known to be missing.
fn attempt(rules: Rules, text: &[u8], index: usize, closers: Closers) -> Result<usize, Closers>
    requires { index < length text.now }
    ensures { Known closers (drop index text.now) → Attempt rules text.now index result }
{
    let opening = &text[index..];
    let form = closers.asked(opening);
    if !closers.is_ahead(form) {
        return Err(closers);
    }
    match inline_at(rules, text, index).stop {
        Some(stop) => Ok(stop),
        None => Err(closers.missed(form, opening)),
    }
}

// The next piece of a paragraph from an index on. The text ends where the paragraph does.
pub(crate) fn next_inline(
    rules: Rules,
    text: &[u8],
    index: usize,
    closers: Closers,
) -> Option<Inlined>
    ensures { Known closers (drop index text.now) → NextInline rules text.now index result }
{
    let mut known = closers;
    let mut start = next_open(text, index);
    while start < text.len() {
        match attempt(rules, text, start, known) {
            Ok(stop) => {
                let piece = Piece {
                    start,
                    stop,
                    block: false,
                };
                return Some(Inlined {
                    piece,
                    closers: known,
                });
            }
            Err(left) => known = left,
        }
        start = next_open(text, start + 1);
    }
    None
}
