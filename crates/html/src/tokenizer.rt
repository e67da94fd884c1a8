// tokenizer.rs: the names of the states, the step that calls a state's function, and the run of a scan.
ghost use Rattle.std.specs.Prelude.{◌≡◌, ◌+◌, length, drop};
ghost use Rattle.lexical.specs.Text.{pick};
ghost use Rattle.rules.specs.Scan.{inlineAnswer};
ghost use Rattle.html.specs.TextMachine.{stepOf, runOf, bodyMark, bodyLength};
ghost use Rattle.html.specs.Answer.{inlineOf, carryingOf};

use crate::html_text;
use lexical::line::mark_or_line_end;
use rules::Rules;

#[derive(Clone, Copy, Debug, PartialEq, Eq)]
pub enum StateName {
    Start,
    Open,
    DeclarationOpen,
    CommentOpenInside,
    Comment,
    CommentClose,
    CommentEnd,
    CdataOpenInside,
    Cdata,
    CdataClose,
    CdataEnd,
    Declaration,
    Instruction,
    InstructionClose,
    TagCloseStart,
    TagClose,
    TagCloseBetween,
    TagOpen,
    TagOpenBetween,
    TagOpenAttributeName,
    TagOpenAttributeNameAfter,
    TagOpenAttributeValueBefore,
    // With the quotation mark.
    TagOpenAttributeValueQuoted(u8),
    TagOpenAttributeValueQuotedAfter,
    TagOpenAttributeValueUnquoted,
    End,
}

// What a state does with a byte: take it and go on with a state and a size, take it as the last, or not take it.
#[derive(Clone, Copy, Debug, PartialEq, Eq)]
pub enum State {
    Next(StateName, u8),
    Ok,
    Nok,
}

// The answer of an inline scan: where what was found stops, and how many letters of the CDATA prefix were counted.
#[derive(Clone, Copy, Debug, PartialEq, Eq)]
pub struct Inline {
    pub stop: Option<usize>,
    pub carry: u8,
}

impl Inline {
    // With the carry passed in where T2 is left out: without it the carry is neither read nor changed.
    pub fn keep(self, rules: Rules, carry: u8) -> Inline
        ensures { inlineOf result ≡ pick rules.t2 (inlineOf self) (carryingOf carry (inlineOf self)) }
    {
        if rules.t2 {
            return self;
        }
        Inline { carry, ..self }
    }
}

// The state's function on the byte.
#[tactic(auto, unfolding(crate::specs::TextMachine::stepOf))]
pub fn step(rules: Rules, state: StateName, size: u8, b: u8) -> State
    ensures { result ≡ stepOf rules state size b }
{
    match state {
        StateName::Start => html_text::start(size, b),
        StateName::Open => html_text::open(size, b),
        StateName::DeclarationOpen => html_text::declaration_open(size, b),
        StateName::CommentOpenInside => html_text::comment_open_inside(size, b),
        StateName::Comment => html_text::comment(size, b),
        StateName::CommentClose => html_text::comment_close(size, b),
        StateName::CommentEnd => html_text::comment_end(size, b),
        StateName::CdataOpenInside => html_text::cdata_open_inside(size, b),
        StateName::Cdata => html_text::cdata(size, b),
        StateName::CdataClose => html_text::cdata_close(size, b),
        StateName::CdataEnd => html_text::cdata_end(size, b),
        StateName::Declaration => html_text::declaration(size, b),
        StateName::Instruction => html_text::instruction(size, b),
        StateName::InstructionClose => html_text::instruction_close(size, b),
        StateName::TagCloseStart => html_text::tag_close_start(size, b),
        StateName::TagClose => html_text::tag_close(size, b),
        StateName::TagCloseBetween => html_text::tag_close_between(size, b),
        StateName::TagOpen => html_text::tag_open(size, b),
        StateName::TagOpenBetween => html_text::tag_open_between(size, b),
        StateName::TagOpenAttributeName => html_text::tag_open_attribute_name(size, b),
        StateName::TagOpenAttributeNameAfter => html_text::tag_open_attribute_name_after(size, b),
        StateName::TagOpenAttributeValueBefore => html_text::tag_open_attribute_value_before(
            size, b,
        ),
        StateName::TagOpenAttributeValueQuoted(marker) =>
            html_text::tag_open_attribute_value_quoted(marker, size, b),
        StateName::TagOpenAttributeValueQuotedAfter =>
            html_text::tag_open_attribute_value_quoted_after(size, b),
        StateName::TagOpenAttributeValueUnquoted => html_text::tag_open_attribute_value_unquoted(
            rules, size, b,
        ),
        StateName::End => html_text::end(b),
    }
}

// The byte that ends the body of a state, if it has a body: another byte, but a line ending, leaves the state as it is.
#[tactic(auto, unfolding(crate::specs::TextMachine::bodyMark))]
fn body_mark(state: StateName) -> Option<u8>
    ensures { result ≡ bodyMark state }
{
    match state {
        StateName::Comment => Some(b'-'),
        StateName::Cdata => Some(b']'),
        StateName::Declaration => Some(b'>'),
        StateName::Instruction => Some(b'?'),
        StateName::TagOpenAttributeValueQuoted(marker) => Some(marker),
        _ => None,
    }
}

// Past the bytes at an index that leave the state as it is, as far as the line goes.
fn body_end(text: &[u8], index: usize, state: StateName) -> usize
    ensures { result ≡ index + bodyLength (bodyMark state) (drop index text.now) }
{
    match body_mark(state) {
        Some(mark) => mark_or_line_end(text, index, mark),
        None => index,
    }
}

// From a state at an index to the end of the text.
pub(crate) fn run(rules: Rules, text: &[u8], from: usize, start: StateName, carry: u8) -> Inline
    ensures { inlineOf result ≡ inlineAnswer (length text.now) (runOf rules start carry (drop from text.now)) }
{
    let mut state = start;
    let mut size = carry;
    let mut index = from;
    while index < text.len() {
        match step(rules, state, size, text[index]) {
            State::Next(s, k) => {
                state = s;
                size = k;
                index = body_end(text, index + 1, s);
            }
            State::Ok => {
                let stop = Some(index + 1);
                return Inline { stop, carry: size };
            }
            State::Nok => {
                return Inline {
                    stop: None,
                    carry: size,
                };
            }
        }
    }
    Inline {
        stop: None,
        carry: size,
    }
}
