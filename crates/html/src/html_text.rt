// html_text.rs: inline raw HTML. A function for each state: what it does with a byte.
//
//     html_text ::= '<' (comment | instruction | declaration | cdata | closing | opening) '>'
//     comment ::= '!--' (not '-->')* '--'          ; `<!-->` and `<!--->` are comments too
//     instruction ::= '?' (not '?>')* '?'
//     declaration ::= '!' letter (not '>')*
//     cdata ::= '![CDATA[' (not ']]>')* ']]'
//     closing ::= '/' tag_name whitespace*
//     opening ::= tag_name attribute* whitespace* '/'?
//     tag_name ::= letter ('-' | digit | letter)*
//     attribute ::= whitespace+ attribute_name (whitespace* '=' whitespace* attribute_value)?
//     attribute_name ::= (':' | '_' | letter) ('-' | '.' | ':' | '_' | digit | letter)*
//     attribute_value ::= '"' (not '"')* '"' | "'" (not "'")* "'" | unquoted+
//     unquoted ::= not (whitespace | '"' | "'" | '<' | '=' | '>' | '`')
//
// T1 and T2 live here: with T1 an unquoted value holds `/` only as its first byte; with T2 the CDATA prefix is compared from a size that an earlier
// scan left. A `Retry` of the Rust is a call, and the state that an attempt goes on with is a parameter.
ghost use Rattle.std.specs.Prelude.{◌≡◌};
ghost use Rattle.html.specs.declared.tokenizer.State.TheVariants.{Next};
ghost use Rattle.html.specs.TextMachine.{attributeNameAfterOf, attributeNameOf, cdataCloseOf, cdataEndOf, cdataOf, cdataOpenInsideOf, commentCloseOf, commentEndOf, commentOf, commentOpenInsideOf, declarationOf, declarationOpenOf, endOf, instructionCloseOf, instructionOf, openOf, startOf, tagCloseBetweenOf, tagCloseOf, tagCloseStartOf, tagOpenBetweenOf, tagOpenOf, valueBeforeOf, valueQuotedAfterOf, valueQuotedOf, valueUnquotedOf};

use crate::tokenizer::{State, StateName};
use lexical::byte::{
    is_attribute_name_byte, is_attribute_name_start, is_letter, is_line_ending_byte, is_quote,
    is_space_or_tab, is_tag_break, is_tag_name_byte, is_value_end, is_value_excluded,
};
use lexical::constant::{HTML_CDATA_SIZE, cdata_letters};
use rules::Rules;

// Start of inline raw HTML.
//
//     a <b> c
//       ^
#[tactic(auto, unfolding(crate::specs::TextMachine::startOf))]
pub(crate) fn start(size: u8, b: u8) -> State
    ensures { result ≡ startOf size b }
{
    match b {
        b'<' => State::Next(StateName::Open, size),
        _ => State::Nok,
    }
}

// After `<`: a tag name, or what opens something else.
//
//     a <b> c
//        ^
//     a <!doctype> c
//        ^
//     a <!--b--> c
//        ^
#[tactic(auto, unfolding(crate::specs::TextMachine::openOf))]
pub(crate) fn open(size: u8, b: u8) -> State
    ensures { result ≡ openOf size b }
{
    match b {
        b'!' => State::Next(StateName::DeclarationOpen, size),
        b'/' => State::Next(StateName::TagCloseStart, size),
        b'?' => State::Next(StateName::Instruction, size),
        _ => if is_letter(b) {
            State::Next(StateName::TagOpen, size)
        } else {
            State::Nok
        },
    }
}

// After `<!`: a declaration, a comment or CDATA.
//
//     a <!doctype> c
//         ^
//     a <!--b--> c
//         ^
//     a <![CDATA[>&<]]> c
//         ^
#[tactic(auto, unfolding(crate::specs::TextMachine::declarationOpenOf))]
pub(crate) fn declaration_open(size: u8, b: u8) -> State
    ensures { result ≡ declarationOpenOf size b }
{
    match b {
        b'-' => State::Next(StateName::CommentOpenInside, size),
        b'[' => State::Next(StateName::CdataOpenInside, size),
        _ => if is_letter(b) {
            State::Next(StateName::Declaration, size)
        } else {
            State::Nok
        },
    }
}

// After `<!-`: another `-`.
//
//     a <!--b--> c
//          ^
#[tactic(auto, unfolding(crate::specs::TextMachine::commentOpenInsideOf))]
pub(crate) fn comment_open_inside(size: u8, b: u8) -> State
    ensures { result ≡ commentOpenInsideOf size b }
{
    match b {
        b'-' => State::Next(StateName::CommentEnd, size),
        _ => State::Nok,
    }
}

// In a comment.
//
//     a <!--b--> c
//           ^
#[tactic(auto, unfolding(crate::specs::TextMachine::commentOf))]
pub(crate) fn comment(size: u8, b: u8) -> State
    ensures { result ≡ commentOf size b }
{
    match b {
        b'\n' | b'\r' => line_ending_before(StateName::Comment, size),
        b'-' => State::Next(StateName::CommentClose, size),
        _ => State::Next(StateName::Comment, size),
    }
}

// In a comment, after `-`.
//
//     a <!--b--> c
//             ^
#[tactic(auto, unfolding(crate::specs::TextMachine::commentCloseOf))]
pub(crate) fn comment_close(size: u8, b: u8) -> State
    ensures { result ≡ commentCloseOf size b }
{
    match b {
        b'-' => State::Next(StateName::CommentEnd, size),
        _ => comment(size, b),
    }
}

// In a comment, after `--`.
//
//     a <!--b--> c
//              ^
#[tactic(auto, unfolding(crate::specs::TextMachine::commentEndOf))]
pub(crate) fn comment_end(size: u8, b: u8) -> State
    ensures { result ≡ commentEndOf size b }
{
    match b {
        b'>' => end(b),
        b'-' => comment_close(size, b),
        _ => comment(size, b),
    }
}

// After `<![`: the rest of `CDATA[`, of which size bytes were counted.
//
//     a <![CDATA[>&<]]> b
//          ^^^^^^
#[tactic(auto, unfolding(crate::specs::TextMachine::cdataOpenInsideOf))]
pub(crate) fn cdata_open_inside(size: u8, b: u8) -> State
    ensures { result ≡ cdataOpenInsideOf size b }
{
    let carry = size as usize;
    let byte = [b];
    let count = cdata_letters(&byte, 0, carry);
    if count == carry {
        return State::Nok;
    }
    if count == HTML_CDATA_SIZE {
        return State::Next(StateName::Cdata, 0);
    }
    let letters = count as u8;
    State::Next(StateName::CdataOpenInside, letters)
}

// In CDATA.
//
//     a <![CDATA[>&<]]> b
//                ^
#[tactic(auto, unfolding(crate::specs::TextMachine::cdataOf))]
pub(crate) fn cdata(size: u8, b: u8) -> State
    ensures { result ≡ cdataOf size b }
{
    match b {
        b'\n' | b'\r' => line_ending_before(StateName::Cdata, size),
        b']' => State::Next(StateName::CdataClose, size),
        _ => State::Next(StateName::Cdata, size),
    }
}

// In CDATA, after `]`.
//
//     a <![CDATA[>&<]]> b
//                    ^
#[tactic(auto, unfolding(crate::specs::TextMachine::cdataCloseOf))]
pub(crate) fn cdata_close(size: u8, b: u8) -> State
    ensures { result ≡ cdataCloseOf size b }
{
    match b {
        b']' => State::Next(StateName::CdataEnd, size),
        _ => cdata(size, b),
    }
}

// In CDATA, after `]]`.
//
//     a <![CDATA[>&<]]> b
//                     ^
#[tactic(auto, unfolding(crate::specs::TextMachine::cdataEndOf))]
pub(crate) fn cdata_end(size: u8, b: u8) -> State
    ensures { result ≡ cdataEndOf size b }
{
    match b {
        b'>' => end(b),
        b']' => cdata_close(size, b),
        _ => cdata(size, b),
    }
}

// In a declaration.
//
//     a <!b> c
//         ^
#[tactic(auto, unfolding(crate::specs::TextMachine::declarationOf))]
pub(crate) fn declaration(size: u8, b: u8) -> State
    ensures { result ≡ declarationOf size b }
{
    match b {
        b'\n' | b'\r' => line_ending_before(StateName::Declaration, size),
        b'>' => end(b),
        _ => State::Next(StateName::Declaration, size),
    }
}

// In an instruction.
//
//     a <?b?> c
//         ^
#[tactic(auto, unfolding(crate::specs::TextMachine::instructionOf))]
pub(crate) fn instruction(size: u8, b: u8) -> State
    ensures { result ≡ instructionOf size b }
{
    match b {
        b'\n' | b'\r' => line_ending_before(StateName::Instruction, size),
        b'?' => State::Next(StateName::InstructionClose, size),
        _ => State::Next(StateName::Instruction, size),
    }
}

// In an instruction, after `?`.
//
//     a <?b?> c
//           ^
#[tactic(auto, unfolding(crate::specs::TextMachine::instructionCloseOf))]
pub(crate) fn instruction_close(size: u8, b: u8) -> State
    ensures { result ≡ instructionCloseOf size b }
{
    match b {
        b'>' => end(b),
        _ => instruction(size, b),
    }
}

// After `</`: a closing tag's name.
//
//     a </b> c
//         ^
#[tactic(auto, unfolding(crate::specs::TextMachine::tagCloseStartOf))]
pub(crate) fn tag_close_start(size: u8, b: u8) -> State
    ensures { result ≡ tagCloseStartOf size b }
{
    if is_letter(b) {
        State::Next(StateName::TagClose, size)
    } else {
        State::Nok
    }
}

// In a closing tag's name.
//
//     a </b> c
//          ^
#[tactic(auto, unfolding(crate::specs::TextMachine::tagCloseOf))]
pub(crate) fn tag_close(size: u8, b: u8) -> State
    ensures { result ≡ tagCloseOf size b }
{
    if is_tag_name_byte(b) {
        State::Next(StateName::TagClose, size)
    } else {
        tag_close_between(size, b)
    }
}

// In a closing tag, behind its name.
//
//     a </b> c
//          ^
#[tactic(auto, unfolding(crate::specs::TextMachine::tagCloseBetweenOf))]
pub(crate) fn tag_close_between(size: u8, b: u8) -> State
    ensures { result ≡ tagCloseBetweenOf size b }
{
    if is_line_ending_byte(b) {
        line_ending_before(StateName::TagCloseBetween, size)
    } else if is_space_or_tab(b) {
        State::Next(StateName::TagCloseBetween, size)
    } else {
        end(b)
    }
}

// In an open tag's name.
//
//     a <b> c
//         ^
#[tactic(auto, unfolding(crate::specs::TextMachine::tagOpenOf))]
pub(crate) fn tag_open(size: u8, b: u8) -> State
    ensures { result ≡ tagOpenOf size b }
{
    if is_tag_name_byte(b) {
        State::Next(StateName::TagOpen, size)
    } else if is_tag_break(b) {
        tag_open_between(size, b)
    } else {
        State::Nok
    }
}

// In an open tag, behind its name or an attribute.
//
//     a <b> c
//         ^
#[tactic(auto, unfolding(crate::specs::TextMachine::tagOpenBetweenOf))]
pub(crate) fn tag_open_between(size: u8, b: u8) -> State
    ensures { result ≡ tagOpenBetweenOf size b }
{
    if is_line_ending_byte(b) {
        line_ending_before(StateName::TagOpenBetween, size)
    } else if is_space_or_tab(b) {
        State::Next(StateName::TagOpenBetween, size)
    } else if b == b'/' {
        State::Next(StateName::End, size)
    } else if is_attribute_name_start(b) {
        State::Next(StateName::TagOpenAttributeName, size)
    } else {
        end(b)
    }
}

// In an attribute's name.
//
//     a <b c> d
//          ^
#[tactic(auto, unfolding(crate::specs::TextMachine::attributeNameOf))]
pub(crate) fn tag_open_attribute_name(size: u8, b: u8) -> State
    ensures { result ≡ attributeNameOf size b }
{
    if is_attribute_name_byte(b) {
        State::Next(StateName::TagOpenAttributeName, size)
    } else {
        tag_open_attribute_name_after(size, b)
    }
}

// After an attribute's name: `=`, the end of the tag, or another attribute.
//
//     a <b c> d
//           ^
#[tactic(auto, unfolding(crate::specs::TextMachine::attributeNameAfterOf))]
pub(crate) fn tag_open_attribute_name_after(size: u8, b: u8) -> State
    ensures { result ≡ attributeNameAfterOf size b }
{
    if is_line_ending_byte(b) {
        line_ending_before(StateName::TagOpenAttributeNameAfter, size)
    } else if is_space_or_tab(b) {
        State::Next(StateName::TagOpenAttributeNameAfter, size)
    } else if b == b'=' {
        State::Next(StateName::TagOpenAttributeValueBefore, size)
    } else {
        tag_open_between(size, b)
    }
}

// After `=`: a value, quoted or not.
//
//     a <b c=d> e
//            ^
#[tactic(auto, unfolding(crate::specs::TextMachine::valueBeforeOf))]
pub(crate) fn tag_open_attribute_value_before(size: u8, b: u8) -> State
    ensures { result ≡ valueBeforeOf size b }
{
    if is_line_ending_byte(b) {
        line_ending_before(StateName::TagOpenAttributeValueBefore, size)
    } else if is_space_or_tab(b) {
        State::Next(StateName::TagOpenAttributeValueBefore, size)
    } else if is_quote(b) {
        State::Next(StateName::TagOpenAttributeValueQuoted(b), size)
    } else if is_value_excluded(b) {
        State::Nok
    } else {
        State::Next(StateName::TagOpenAttributeValueUnquoted, size)
    }
}

// In a quoted value.
//
//     a <b c="d"> e
//             ^
#[tactic(auto, unfolding(crate::specs::TextMachine::valueQuotedOf))]
pub(crate) fn tag_open_attribute_value_quoted(marker: u8, size: u8, b: u8) -> State
    ensures { result ≡ valueQuotedOf marker size b }
{
    if b == marker {
        State::Next(StateName::TagOpenAttributeValueQuotedAfter, size)
    } else if is_line_ending_byte(b) {
        line_ending_before(StateName::TagOpenAttributeValueQuoted(marker), size)
    } else {
        State::Next(StateName::TagOpenAttributeValueQuoted(marker), size)
    }
}

// In an unquoted value. T1: only its first byte may be `/`. What ends it must be fit to follow a value.
//
//     a <b c=d> e
//            ^
#[tactic(auto, unfolding(crate::specs::TextMachine::valueUnquotedOf))]
pub(crate) fn tag_open_attribute_value_unquoted(rules: Rules, size: u8, b: u8) -> State
    ensures { result ≡ valueUnquotedOf rules size b }
{
    if is_value_end(rules.t1, b) {
        tag_open_attribute_value_quoted_after(size, b)
    } else {
        State::Next(StateName::TagOpenAttributeValueUnquoted, size)
    }
}

// After a quoted value: whitespace or the end of the tag.
//
//     a <b c="d"> e
//               ^
#[tactic(auto, unfolding(crate::specs::TextMachine::valueQuotedAfterOf))]
pub(crate) fn tag_open_attribute_value_quoted_after(size: u8, b: u8) -> State
    ensures { result ≡ valueQuotedAfterOf size b }
{
    if is_tag_break(b) {
        tag_open_between(size, b)
    } else {
        State::Nok
    }
}

// The closing `>`.
//
//     a <b> c
//         ^
#[tactic(auto, unfolding(crate::specs::TextMachine::endOf))]
pub(crate) fn end(b: u8) -> State
    ensures { result ≡ endOf b }
{
    match b {
        b'>' => State::Ok,
        _ => State::Nok,
    }
}

// At a line ending: the state goes on behind it.
//
//     a <!--a
//            ^
//     b--> c
fn line_ending_before(ok: StateName, size: u8) -> State
    ensures { result ≡ Next ok size }
{
    line_ending_after(ok, size)
}

// After a line ending: the state takes the spaces and tabs that lead the next line itself.
//
//     a <!--a
//     b--> c
//     ^
fn line_ending_after(ok: StateName, size: u8) -> State
    ensures { result ≡ Next ok size }
{
    line_ending_after_prefix(ok, size)
}

// After the spaces and tabs that lead a line.
//
//     a <!--a
//       b--> c
//       ^
fn line_ending_after_prefix(ok: StateName, size: u8) -> State
    ensures { result ≡ Next ok size }
{
    State::Next(ok, size)
}
