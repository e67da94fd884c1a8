// What is refused, and the number that tells it. docs/SCOPE.md says where each is met.
ghost use Rattle.std.specs.Prelude.{◌≡◌};
ghost use Rattle.rules.specs.Refusal.{refusalNumber};

use std::error::Error;
use std::fmt;

#[derive(Clone, Copy, Debug, PartialEq, Eq, Hash)]
pub enum Refusal {
    // A bulletin, or a text, with more bytes than are taken.
    TooLong = 1,
    // Not as many flags as lines.
    WrongCount = 2,
    // A flag above 3.
    WrongFlag = 3,
    // For a block no line's first byte, for an inline piece past the end.
    WrongIndex = 4,
    // A carry above 5.
    WrongCarry = 5,
    // A blank line in a text.
    BlankLine = 6,
    // An output buffer with less room than the output needs.
    NoRoom = 7,
    // A record of no kind.
    WrongKind = 8,
    // A trace that ends within a record, or before the one that is asked for.
    CutOff = 9,
    // A trace without exactly one final record at its end.
    NotEnded = 10,
    // A field above 65,535, on the way to narrow.
    NotNarrow = 11,
    // Spans that are not whole, out of order, overlapping, with a stop not above the start, past the end or of another kind.
    WrongSpans = 12,
}

impl From<Refusal> for u8 {
    ghost from_gives = { λ refusal number. number ≡ refusalNumber refusal };

    fn from(refusal: Refusal) -> u8 {
        refusal as u8
    }
}

impl fmt::Display for Refusal {
    fn fmt<W: fmt::Write>(&self, f: &mut fmt::Formatter<W>) -> fmt::Result {
        write!(f, "refused {}", u8::from(*self))
    }
}

impl Error for Refusal {}
