// GitHub's tag filter. The pieces are those of withholding; here they are shown.
ghost use Rattle.std.specs.Prelude.{◌≡◌, ◌+◌, ◌<◌, ◌≤◌, leb, length};
ghost use Rattle.lexical.specs.Text.{limit};
ghost use Rattle.rules.specs.Withhold.{written};
ghost use Rattle.rules.specs.Output.{outputOf, Writes};
ghost use Rattle.rules.specs.Filter.{filtered, filterRefusal, filter as filterOf};
ghost use Rattle.tagfilter.specs.Part.{countedEnd, pieceBytes, WritesPart, filteredBy};

use crate::part::{part_length, write_part};
use flow::scan::check_bulletin;
use lexical::copy::copy_part;
use rules::Rules;
use rules::refusal::Refusal;
use walk::bulletin::Bulletin;
use walk::pieces::Piece;

// The bytes of the shortest tag that is replaced, `<xmp>`, and of what comes in its place. No bulletin grows by more than this.
const SHORTEST_TAG: usize = 5;

const SHORTEST_REPLACED: usize = 8;

// Where the places of a piece that can count end: inside a block each counts, of an inline piece only the first byte.
fn counted_end(piece: Piece) -> usize
    requires { piece.start < piece.stop }
    ensures { result ≡ countedEnd piece.block piece.start piece.stop }
{
    if piece.block {
        piece.stop
    } else {
        piece.start + 1
    }
}

// How many bytes come in place of a piece.
fn piece_length(bulletin: &[u8], piece: Piece) -> usize
    requires within { (piece.start < piece.stop) × (piece.stop ≤ length bulletin.now) }
    requires short { length bulletin.now ≤ limit }
    ensures { result ≡ length (pieceBytes bulletin.now piece) }
{
    let end = counted_end(piece);
    part_length(bulletin, piece.start, end) + (piece.stop - end)
}

// Writes what comes in place of a piece to a place with room for it, and gives the place behind.
fn write_piece(bulletin: &[u8], piece: Piece, out: &mut [u8], at: usize) -> usize
    requires within { (piece.start < piece.stop) × (piece.stop ≤ length bulletin.now) }
    requires room { at + length (pieceBytes bulletin.now piece) ≤ length out.old }
    ensures { WritesPart out.old at (pieceBytes bulletin.now piece) out.new result }
{
    let end = counted_end(piece);
    let behind = write_part(bulletin, piece.start, end, out, at);
    copy_part(bulletin, end, piece.stop, out, behind);
    behind + (piece.stop - end)
}

// How many bytes are shown.
fn filtered_length(bulletin: Bulletin<'_>) -> usize
    requires { length bulletin.text.now ≤ limit }
    ensures { result ≡ length (filteredBy bulletin.entry) }
{
    let mut from = 0;
    let mut size = 0;
    for piece in bulletin.pieces() {
        size += piece.start - from;
        size += piece_length(bulletin.text, piece);
        from = piece.stop;
    }
    size + (bulletin.text.len() - from)
}

// Writes what is shown to the front of a buffer that has room for it, and gives its length.
fn show(bulletin: Bulletin<'_>, out: &mut [u8]) -> usize
    requires { length (filteredBy bulletin) ≤ length out.old }
    ensures { Writes 0 (filteredBy bulletin.entry) out.old (Ok result) out.new }
{
    let text = bulletin.text;
    let mut from = 0;
    let mut size = 0;
    for piece in bulletin.pieces() {
        copy_part(text, from, piece.start, out, size);
        size = write_piece(text, piece, out, size + (piece.start - from));
        from = piece.stop;
    }
    copy_part(text, from, text.len(), out, size);
    size + (text.len() - from)
}

// Whether a buffer has room for what is shown. Where it has room for as much as a bulletin of that length can become, nothing is counted.
fn has_room(bulletin: Bulletin<'_>, room: usize) -> bool
    requires { length bulletin.text.now ≤ limit }
    ensures { result ≡ leb (length (filteredBy bulletin.entry)) room }
{
    bulletin.text.len() * SHORTEST_REPLACED / SHORTEST_TAG <= room
        || filtered_length(bulletin) <= room
}

// Shows a bulletin with its raw HTML, but the `<` of GitHub's nine tags as `&lt;`, in any reading, and gives the shown length.
pub fn filter(rules: Rules, bulletin: &[u8], flags: &[u8], out: &mut [u8]) -> Result<usize, Refusal>
    ensures answer { outputOf result ≡ filterOf rules bulletin.now flags.now (length out.old) }
    ensures buffer { out.new ≡ written (filterRefusal rules bulletin.now flags.now (length out.old)) (filtered rules bulletin.now flags.now) out.old }
{
    check_bulletin(bulletin, flags)?;
    let whole = Bulletin {
        rules,
        text: bulletin,
        flags,
    };
    if !has_room(whole, out.len()) {
        return Err(Refusal::NoRoom);
    }
    Ok(show(whole, out))
}
