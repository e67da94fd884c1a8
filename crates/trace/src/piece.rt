// The trace of a piece: first the length, then the writing.
ghost use Rattle.std.specs.Prelude.{◌≡◌, ℕ, ◌+◌, ◌*◌, ◌≤◌, length};
ghost use Rattle.lexical.specs.Text.{limit};
ghost use Rattle.rules.specs.Refusal.{outputRefusal};
ghost use Rattle.rules.specs.Trace.{wide, pairOf, lastRecord, recordBytes};
ghost use Rattle.rules.specs.Output.{Writes};
ghost use Rattle.records.specs.Answer.{formNumber};
ghost use Rattle.trace.specs.Writing.{eventLength, lastLength};
ghost use Rattle.trace.specs.Walk.{dataEvents, restEvents, leadTo, pieceEvents, pieceTrace};

use crate::pen::Pen;
use flow::partial_space_or_tab::inside;
use lexical::event::Point;
use lexical::line::{line_end, line_ending, next_line, space_or_tab_end};
use records::event::Form;
use records::reader::Record;
use records::writer::{EVENT_LENGTH, LAST_LENGTH, write_record};
use rules::refusal::Refusal;

// A piece that was found: where it begins, where what is taken of it ends and where it is left, and its carry or the number of its kind.
#[derive(Clone, Copy)]
pub(crate) struct Piece {
    pub(crate) form: Form,
    pub(crate) index: usize,
    pub(crate) stop: usize,
    pub(crate) exit: usize,
    pub(crate) value: u8,
}

// Where the data of its first line begins: in a block behind the spaces that lead.
pub(crate) fn lead_end(form: Form, front: &[u8], index: usize) -> usize
    ensures { result ≡ leadTo form front.now index }
{
    match form {
        Form::Text => index,
        Form::Flow => inside(front, index),
    }
}

// How many events an enter and its exit are, where there is a byte between.
fn count_some(from: usize, to: usize) -> usize
    ensures counted { (kind : ℕ) → result ≡ length (pairOf kind from to) }
    ensures few { result ≤ 2 }
{
    if from < to { 2 } else { 0 }
}

// How many events the line at an index has.
#[tactic(auto, using(crate::proofs::Walks::line_room))]
fn count_data(form: Form, front: &[u8], index: usize) -> usize
    ensures counted { result ≡ length (dataEvents form front.now index) }
    ensures few { result ≤ 4 }
{
    match form {
        Form::Text => 2 + count_some(index, space_or_tab_end(front, index)),
        Form::Flow => count_some(index, line_end(front, index)),
    }
}

// How many events all lines behind the content that ends at an index have.
#[tactic(auto, unfolding(lexical::specs::Text::limit))]
fn count_lines(form: Form, front: &[u8], index: usize) -> usize
    requires { (index ≤ length front.now) × (length front.now ≤ limit) }
    ensures counted { result ≡ length (restEvents form front.now index) }
    ensures few { result ≤ 6 * limit }
{
    let mut count = 0;
    let mut i = index;
    while 0 < line_ending(front, i) {
        let from = next_line(front, i);
        count += 2 + count_data(form, front, from);
        i = line_end(front, from);
    }
    count
}

// The length of the trace of a piece that begins at an index of the text before its stop.
#[tactic(auto, unfolding(lexical::specs::Text::limit))]
fn piece_length(form: Form, front: &[u8], index: usize) -> usize
    requires { (index ≤ length front.now) × (length front.now ≤ limit) }
    ensures { (exit : ℕ) → result ≡ eventLength * length (pieceEvents form front.now index exit) + lastLength }
{
    let lead = count_some(index, lead_end(form, front, index));
    let lines = count_lines(form, front, line_end(front, index));
    (4 + lead + lines) * EVENT_LENGTH + LAST_LENGTH
}

// The trace of a piece of a text, or the refusal of it.
pub(crate) fn trace_piece(text: &[u8], piece: Piece, out: &mut [u8]) -> Result<usize, Refusal>
    requires small { length text.now ≤ limit }
    requires within { (piece.index ≤ piece.stop) × ((piece.stop ≤ piece.exit) × (piece.exit ≤ length text.now)) }
    ensures { Writes (outputRefusal 0 (length out.old) (pieceTrace text.now piece)) (pieceTrace text.now piece) out.old result out.new }
{
    let front = &text[..piece.stop];
    let length = piece_length(piece.form, front, piece.index);
    if out.len() < length {
        return Err(Refusal::NoRoom);
    }
    let mut pen = Pen {
        text,
        front,
        out,
        at: 0,
        point: Point::start(),
    };
    pen.mark_piece(piece.form, piece.index, piece.exit);
    pen.mark_last(piece.form, piece.stop, piece.value);
    Ok(length)
}

// The trace of a scan that finds nothing, or the refusal of it.
pub(crate) fn trace_last(
    form: Form,
    index: usize,
    value: u8,
    out: &mut [u8],
) -> Result<usize, Refusal>
    ensures { Writes (outputRefusal 0 (length out.old) (recordBytes wide (lastRecord (formNumber form) index value))) (recordBytes wide (lastRecord (formNumber form) index value)) out.old result out.new }
{
    if out.len() < LAST_LENGTH {
        return Err(Refusal::NoRoom);
    }
    let last = Record::Last {
        form,
        stop: index,
        value,
    };
    write_record(out, 0, last);
    Ok(LAST_LENGTH)
}
