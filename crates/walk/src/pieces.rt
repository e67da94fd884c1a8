// The pieces of a bulletin, one after the other.
ghost use Rattle.std.specs.Prelude.{◌≡◌, ◌<◌, ◌≤◌, length};
ghost use Rattle.rules.specs.Block.{kindOf};
ghost use Rattle.walk.specs.Remaining.{lineAt, BlockEnd, atLine, Valid, Opens, fromLineOf, fromPlace, TurnTo, Goes};

use crate::bulletin::Bulletin;
use crate::closers::Closers;
use crate::paragraph::{End, next_inline, past_escaped};
use flow::partial_non_lazy_continuation::next_number;
use flow::scan::block_at;
use lexical::byte::peek;
use lexical::line::{line_end, mark_or_line_end, next_line};
use lexical::slice::from_indices;

// A piece: a block, or an inline piece of a paragraph.
#[derive(Clone, Copy, Debug, PartialEq, Eq)]
pub struct Piece {
    pub start: usize,
    pub stop: usize,
    pub block: bool,
}

// A place between pieces: an index of a paragraph that ends at stop, and behind that the line that begins at next, with its number. Outside paragraphs nothing
// lies between index and stop. Only this file makes one.
#[derive(Clone, Copy)]
pub struct Cursor {
    index: usize,
    stop: usize,
    next: usize,
    line: usize,
    closers: Closers,
}

// A piece, and the place behind it.
#[derive(Clone, Copy)]
pub struct Next {
    pub piece: Piece,
    pub behind: Cursor,
}

// What a line outside blocks gives: the next piece or none, and the place to go on from.
#[derive(Clone, Copy)]
struct Turn {
    piece: Option<Piece>,
    behind: Cursor,
}

impl Cursor {
    // In front of a line, outside paragraphs: `at_line(0, 0)` is in front of all pieces.
    pub fn at_line(next: usize, line: usize) -> Cursor
        ensures { result ≡ atLine next line }
    {
        Cursor {
            index: 0,
            stop: 0,
            next,
            line,
            closers: Closers::all(),
        }
    }
}

impl<'a> Bulletin<'a> {
    // Where the content of a block's last line ends, and the number of the line behind it. The block begins with the line at an index and ends at stop.
    fn block_end(self, index: usize, line: usize, stop: usize) -> End
        requires { index ≤ length self.text.now }
        ensures { BlockEnd self.entry index line stop result }
    {
        let mut end = line_end(self.text, index);
        let mut number = next_number(self.flags, line);
        while (end < stop) & (end < self.text.len()) {
            end = line_end(self.text, next_line(self.text, end));
            number = next_number(self.flags, number);
        }
        End {
            stop: end,
            line: number,
        }
    }

    // A line that opens a block, which ends at stop.
    fn block_line(self, cursor: Cursor, stop: usize) -> Turn
        requires within { cursor.next < length self.text.now }
        requires opens { Opens self cursor stop }
        ensures { TurnTo self.entry cursor result }
    {
        let end = self.block_end(cursor.next, cursor.line, stop);
        Turn {
            piece: Some(Piece {
                start: cursor.next,
                stop,
                block: true,
            }),
            behind: Cursor::at_line(next_line(self.text, end.stop), end.line),
        }
    }

    // A line that opens no block. Where it has no `<`, the next line may as well begin a paragraph: the end of a paragraph is looked for only where it has a `<`.
    fn text_line(self, cursor: Cursor) -> Turn
        requires within { cursor.next < length self.text.now }
        requires no_block { kindOf self.rules (lineAt self.text.now self.flags.now cursor.next cursor.line) ≡ 0 }
        ensures { TurnTo self.entry cursor result }
    {
        let opening = mark_or_line_end(self.text, cursor.next, b'<');
        if peek(self.text, opening) != Some(b'<') {
            return Turn {
                piece: None,
                behind: Cursor::at_line(
                    next_line(self.text, opening),
                    next_number(self.flags, cursor.line),
                ),
            };
        }
        let end = self.paragraph_end(cursor.next, cursor.line, opening);
        let next = next_line(self.text, end.stop);
        let from = past_escaped(self.text, cursor.next, opening);
        let text = from_indices(self.text, 0, end.stop);
        let closers = Closers::all();
        match next_inline(self.rules, text, from, closers) {
            Some(inlined) => Turn {
                piece: Some(inlined.piece),
                behind: Cursor {
                    index: inlined.piece.stop,
                    stop: end.stop,
                    next,
                    line: end.line,
                    closers: inlined.closers,
                },
            },
            None => Turn {
                piece: None,
                behind: Cursor::at_line(next, end.line),
            },
        }
    }

    // The line in front of which the place is.
    fn line_turn(self, cursor: Cursor) -> Turn
        requires { cursor.next < length self.text.now }
        ensures { TurnTo self.entry cursor result }
    {
        match block_at(self.rules, self.text, self.flags, cursor.next, cursor.line) {
            Some(block) => self.block_line(cursor, block.stop),
            None => self.text_line(cursor),
        }
    }

    // The next piece from a line on.
    fn line_piece(self, cursor: Cursor) -> Option<Next>
        ensures { Goes self.entry (fromLineOf self.entry cursor) result }
    {
        let mut at = cursor;
        while at.next < self.text.len() {
            let turn = self.line_turn(at);
            if let Some(piece) = turn.piece {
                return Some(Next {
                    piece,
                    behind: turn.behind,
                });
            }
            at = turn.behind;
        }
        None
    }

    // The next piece from a place on. Every cursor is taken; where what it remembers of closers is not so, as of another bulletin, a piece may be missed.
    pub fn next_piece(self, cursor: Cursor) -> Option<Next>
        ensures { Valid self.entry.text.now cursor → Goes self.entry (fromPlace self.entry cursor) result }
    {
        let text = from_indices(self.text, 0, cursor.stop);
        match next_inline(self.rules, text, cursor.index, cursor.closers) {
            Some(inlined) => Some(Next {
                piece: inlined.piece,
                behind: Cursor {
                    index: inlined.piece.stop,
                    closers: inlined.closers,
                    ..cursor
                },
            }),
            None => self.line_piece(cursor),
        }
    }
}
