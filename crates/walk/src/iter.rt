// The pieces of a bulletin as an iterator.
ghost use Rattle.std.specs.Prelude.{◌≡◌};
ghost use Rattle.std.specs.Iterator.{item_count};
ghost use Rattle.rules.specs.Withhold.{pieces as piecesOf};
ghost use Rattle.walk.specs.Remaining.{Valid};

use crate::bulletin::Bulletin;
use crate::pieces::{Cursor, Piece};

// The pieces from a place on, in text order.
#[derive(Drop)]
pub struct Pieces<'a> {
    bulletin: Bulletin<'a>,
    cursor: Cursor,
    ghost valid: { Valid bulletin.text.now cursor },
}

impl<'a> Bulletin<'a> {
    ghost use Rattle.walk.specs.Yields.{left};

    // All pieces.
    pub fn pieces(self) -> Pieces<'a>
        ensures { left result ≡ piecesOf self.entry.rules self.entry.text.now self.entry.flags.now }
    {
        Pieces {
            bulletin: self,
            cursor: Cursor::at_line(0, 0),
        }
    }
}

impl<'a> Iterator for Pieces<'a> {
    ghost use Rattle.walk.specs.Yields.{left, Yields};

    type Item = Piece;

    ghost next_gives = { λ s r t. Yields (left s) r (left t) };

    ghost remaining = { item_count left };

    fn next(&mut self) -> Option<Piece> {
        let next = self.bulletin.next_piece(self.cursor)?;
        self.cursor = next.behind;
        Some(next.piece)
    }
}
