// The events of a piece, each with the point of its index, which is carried along from one to the next.
ghost use Rattle.std.specs.Prelude.{◌≡◌, [], ◌∷◌, ◌+◌, ◌*◌, ◌≤◌, length};
ghost use Rattle.lexical.specs.Text.{limit};
ghost use Rattle.lexical.specs.Point.{pointAt};

use crate::piece::lead_end;
use lexical::event::Point;
use lexical::line::{line_end, line_ending, next_line, space_or_tab_end};
use records::event::{Form, Kind, Name};
use records::reader::Record;
use records::writer::{EVENT_LENGTH, LAST_LENGTH, write_record};

// What writes the trace of a piece of a text.
#[derive(Drop)]
pub(crate) struct Pen<'a> {
    pub(crate) text: &'a [u8],
    // The text before the stop of the piece.
    pub(crate) front: &'a [u8],
    pub(crate) out: &'a mut [u8],
    // Where the next record is written.
    pub(crate) at: usize,
    // That of the last event.
    pub(crate) point: Point,
    ghost small: { length text.now ≤ limit },
    ghost within: { length front.now ≤ length text.now },
    ghost stands: { point ≡ pointAt text.now point.index },
}

impl<'a> Pen<'a> {
    ghost use Rattle.lexical.specs.Buffer.{Written};
    ghost use Rattle.rules.specs.Trace.{wide, event, pair, pairOf, lastRecord, recordBytes};
    ghost use Rattle.rules.proofs.Cut.{lineTo};
    ghost use Rattle.records.specs.Answer.{enterNumber, eventNumber, formNumber};
    ghost use Rattle.trace.specs.Writing.{eventLength, lastLength};
    ghost use Rattle.trace.specs.Walk.{firstTo, dataEvents, lineEvents, restEvents, pieceEvents};
    ghost use Rattle.trace.specs.Marking.{Kept, Marked};

    // An event at an index.
    fn mark(&mut self, kind: Kind, name: Name, index: usize)
        requires forward { (self.old.point.index ≤ index) × (index ≤ length self.old.text.now) }
        requires room { self.old.at + eventLength ≤ length self.old.out.now }
        ensures marked { Marked self.old (event (eventNumber kind name) index ∷ []) self.new }
        ensures stands { self.new.point.index ≡ index }
    {
        let point = self.point.move_to(self.text, index);
        let record = Record::Event {
            kind,
            name,
            line: point.line,
            column: point.column,
            index: point.index,
            vs: point.vs as u8,
        };
        write_record(self.out, self.at, record);
        self.point = point;
        self.at += EVENT_LENGTH;
    }

    // An enter and its exit.
    fn mark_pair(&mut self, name: Name, from: usize, to: usize)
        requires forward { (self.old.point.index ≤ from) × ((from ≤ to) × (to ≤ length self.old.text.now)) }
        requires room { self.old.at + 2 * eventLength ≤ length self.old.out.now }
        ensures marked { Marked self.old (pair (enterNumber name) from to) self.new }
        ensures stands { self.new.point.index ≡ to }
    {
        self.mark(Kind::Enter, name, from);
        self.mark(Kind::Exit, name, to);
    }

    // The same, where there is a byte between.
    fn mark_some(&mut self, name: Name, from: usize, to: usize)
        requires forward { (self.old.point.index ≡ from) × ((from ≤ to) × (to ≤ length self.old.text.now)) }
        requires room { self.old.at + eventLength * length (pairOf (enterNumber name) from to) ≤ length self.old.out.now }
        ensures marked { Marked self.old (pairOf (enterNumber name) from to) self.new }
        ensures stands { self.new.point.index ≡ to }
    {
        if from < to {
            self.mark_pair(name, from, to);
        }
    }

    // Of the line at the pen: inline leading spaces or tabs, and the data; in a block the data of a line that has bytes.
    #[tactic(auto, using(crate::proofs::Walks::line_room))]
    fn mark_data(&mut self, form: Form)
        requires within { self.old.point.index ≤ length self.old.front.now }
        requires room { self.old.at + eventLength * length (dataEvents form self.old.front.now self.old.point.index) ≤ length self.old.out.now }
        ensures marked { Marked self.old (dataEvents form self.old.front.now self.old.point.index) self.new }
        ensures stands { self.new.point.index ≡ firstTo self.old.front.now self.old.point.index }
    {
        let from = self.point.index;
        let to = line_end(self.front, from);
        match form {
            Form::Text => {
                let data = space_or_tab_end(self.front, from);
                self.mark_some(Name::SpaceOrTab, from, data);
                self.mark_pair(Name::HtmlTextData, data, to);
            }
            Form::Flow => self.mark_some(Name::HtmlFlowData, from, to),
        }
    }

    // The ending at the pen and the line behind it.
    #[tactic(auto, using(crate::proofs::Walks::line_room))]
    fn mark_line(&mut self, form: Form)
        requires within { self.old.point.index ≤ length self.old.front.now }
        requires room { self.old.at + eventLength * length (lineEvents form self.old.front.now self.old.point.index) ≤ length self.old.out.now }
        ensures marked { Marked self.old (lineEvents form self.old.front.now self.old.point.index) self.new }
        ensures stands { self.new.point.index ≡ lineTo self.old.front.now self.old.point.index }
    {
        let index = self.point.index;
        let from = next_line(self.front, index);
        self.mark_pair(Name::LineEnding, index, from);
        self.mark_data(form);
    }

    // All lines behind the content that ends at the pen.
    fn mark_lines(&mut self, form: Form)
        requires within { self.old.point.index ≤ length self.old.front.now }
        requires room { self.old.at + eventLength * length (restEvents form self.old.front.now self.old.point.index) ≤ length self.old.out.now }
        ensures marked { Marked self.old (restEvents form self.old.front.now self.old.point.index) self.new }
        ensures inside { self.new.point.index ≤ length self.new.front.now }
    {
        while 0 < line_ending(self.front, self.point.index) {
            self.mark_line(form);
        }
    }

    // A whole piece, from an index to where it is left.
    #[tactic(auto, using(crate::proofs::Pieces::piece_room))]
    pub(crate) fn mark_piece(&mut self, form: Form, index: usize, exit: usize)
        requires forward { (self.old.point.index ≤ index) × (index ≤ length self.old.front.now) }
        requires within { (length self.old.front.now ≤ exit) × (exit ≤ length self.old.text.now) }
        requires room { self.old.at + eventLength * length (pieceEvents form self.old.front.now index exit) ≤ length self.old.out.now }
        ensures { Marked self.old (pieceEvents form self.old.front.now index exit) self.new }
    {
        let whole = form.whole();
        let data = form.data();
        let lead = lead_end(form, self.front, index);
        let first = line_end(self.front, index);
        self.mark(Kind::Enter, whole, index);
        self.mark_some(data, index, lead);
        self.mark_pair(data, lead, first);
        self.mark_lines(form);
        self.mark(Kind::Exit, whole, exit);
    }

    // The last record.
    pub(crate) fn mark_last(&mut self, form: Form, stop: usize, value: u8)
        requires { self.old.at + lastLength ≤ length self.old.out.now }
        ensures kept { Kept self.old self.new }
        ensures bytes { Written self.old.out.now self.old.at (recordBytes wide (lastRecord (formNumber form) stop value)) self.new.out.now }
        ensures at_is { self.new.at ≡ self.old.at + lastLength }
    {
        write_record(self.out, self.at, Record::Last { form, stop, value });
        self.at += LAST_LENGTH;
    }
}
