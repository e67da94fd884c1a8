// Finding: the spans of what is withheld, before anything is shown.
ghost use Rattle.std.specs.Prelude.{◌≡◌, ◌+◌, ◌≤◌, ◌&&◌, leb, length};
ghost use Rattle.lexical.specs.Buffer.{Written};
ghost use Rattle.lexical.specs.Text.{limit};
ghost use Rattle.rules.specs.Spans.{find as findOf, findRefusal, foundSpans};
ghost use Rattle.rules.specs.Withhold.{written};
ghost use Rattle.rules.specs.Output.{outputOf};
ghost use Rattle.screen.specs.Found.{shownBy, spansBy, Measures, spanNumbers, Fills};

use crate::withhold::Withheld;
use flow::scan::check_bulletin;
use rules::Rules;
use rules::refusal::Refusal;
use spans::list::SPAN_NUMBERS;
use walk::bulletin::Bulletin;
use walk::pieces::Piece;

// How many bytes are shown, and how many pieces are withheld.
fn measure(bulletin: Bulletin<'_>) -> Withheld
    ensures { Measures bulletin.entry result }
{
    let mut from = 0;
    let mut size = 0;
    let mut pieces = 0;
    for piece in bulletin.pieces() {
        size += piece.start - from;
        from = piece.stop;
        pieces += 1;
    }
    Withheld {
        length: size + (bulletin.text.len() - from),
        pieces,
    }
}

// Whether a list has room for all spans, and a buffer for what is shown. Where they have room for as much as any bulletin of that length needs, nothing is counted.
pub(crate) fn has_room(bulletin: Bulletin<'_>, list: usize, room: usize) -> bool
    requires { length bulletin.text.now ≤ limit }
    ensures { result ≡ (leb (length (spansBy bulletin.entry)) list && leb (length (shownBy bulletin.entry)) room) }
{
    let most = bulletin.text.len();
    if (SPAN_NUMBERS * most <= list) & (most <= room) {
        return true;
    }
    let withheld = measure(bulletin);
    (SPAN_NUMBERS * withheld.pieces <= list) & (withheld.length <= room)
}

// Stores the span of a piece at a place of a list that has room for it.
fn store_span(piece: Piece, list: &mut [u32], at: usize)
    requires short { (piece.start ≤ limit) × (piece.stop ≤ limit) }
    requires room { at + SPAN_NUMBERS ≤ length list.old }
    ensures { Written list.old at (spanNumbers piece) list.new }
{
    let span = [piece.start as u32, piece.stop as u32, piece.block as u32];
    list[at..at + SPAN_NUMBERS].copy_from_slice(&span);
}

// Fills the front of a list that has room for them with all spans, and gives their number.
pub(crate) fn fill(bulletin: Bulletin<'_>, list: &mut [u32]) -> usize
    requires short { length bulletin.text.now ≤ limit }
    requires room { length (spansBy bulletin) ≤ length list.old }
    ensures { Fills bulletin.entry list.old result list.new }
{
    let mut pieces = 0;
    for piece in bulletin.pieces() {
        store_span(piece, list, SPAN_NUMBERS * pieces);
        pieces += 1;
    }
    pieces
}

// Fills the front of a list with the span of each piece that is withheld, in text order, in any reading, and gives their number.
pub fn find(rules: Rules, bulletin: &[u8], flags: &[u8], list: &mut [u32]) -> Result<usize, Refusal>
    ensures answer { outputOf result ≡ findOf rules bulletin.now flags.now (length list.old) }
    ensures list { list.new ≡ written (findRefusal rules bulletin.now flags.now (length list.old)) (foundSpans rules bulletin.now flags.now) list.old }
{
    check_bulletin(bulletin, flags)?;
    let whole = Bulletin {
        rules,
        text: bulletin,
        flags,
    };
    // What is shown fits in as many bytes as there are.
    if !has_room(whole, list.len(), bulletin.len()) {
        return Err(Refusal::NoRoom);
    }
    Ok(fill(whole, list))
}
