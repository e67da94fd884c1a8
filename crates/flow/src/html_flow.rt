// html_flow.rs: HTML blocks. A function for each state, over one line without its ending; `continuation_start` goes from line to line.
//
// F1 lives in the states inside CDATA, F2, F4 and F5 in the complete states, F3 in `completes`, F6 in `may_start`. A `Retry` of the Rust is a call.
ghost use Rattle.std.specs.Prelude.{◌≡◌, true, ◌-◌, ◌<◌, ◌≤◌, length, drop, [], ◌∷◌, Some, Ok, is_some, unwrap_or, ◌↔◌};
ghost use Rattle.flow.specs.CompleteMachine.{endOf, afterOf, closingTagAfterOf, nameBeforeOf, nameAfterOf, nameOf, valueQuotedOf, valueQuotedAfterOf, valueUnquotedOf, valueBeforeOf};
ghost use Rattle.rules.specs.Search.{before as standsBefore};
ghost use Rattle.rules.specs.Block.{isRawEnd, beforeCloser, closes};
ghost use Rattle.flow.specs.Place.{isPlace};
ghost use Rattle.flow.specs.Answer.{kindNumber};
ghost use Rattle.flow.specs.declared.html_flow.Kind.{Kind};
ghost use Rattle.flow.specs.ContinuationMachine.{continuationOf, commentInsideOf, cdataInsideOf, stays, declarationInsideOf, nextOf, isClose, isContinuation, closerStart, closerLength, closedAt, rawEndOf};
ghost use Rattle.flow.specs.declared.html_flow.ContinuationName.TheVariants.{Continuation, ContinuationClose};
ghost use Rattle.lexical.specs.Text.{byte};
ghost use Rattle.lexical.specs.Name.{cdataPrefix};
ghost use Rattle.rules.specs.Search.{begins};
ghost use Rattle.rules.specs.Lines.{line as lineOf};
ghost use Rattle.rules.specs.Block.{nameOf as tagNameIn, afterName, mayStart, kindAt, kindOf, tagName, placeOf};
ghost use Rattle.flow.specs.Answer.{openingNumber, openingName, foundOf};
ghost use Rattle.rules.specs.Block.{endsBefore};
ghost use Rattle.rules.specs.Scan.{found, foundBlock};
ghost use Rattle.rules.proofs.Cut.{lineFrom};
ghost use Rattle.flow.specs.BlockMachine.{blankLineBefore, continuationStartOf};
ghost use Rattle.rules.proofs.LineLaws.{contentFrom};
ghost use Rattle.flow.specs.OpenMachine.{selfClosingOf, completesOf, completeOf, tagNameOf, tagCloseStartOf, commentOpenOf, declarationOpenOf, openOf, Names, Unnamed, NamesBasic};

use crate::block::{Block, Opening};
use crate::partial_non_lazy_continuation::{flag_at, is_interrupt, is_lazy, next_number};
use crate::partial_space_or_tab::inside;
use crate::tokenizer::{State, StateName, run as run_complete};
use lexical::byte::{
    is_attribute_name_byte, is_letter, is_line_ending_byte, is_name_break, is_name_start, is_quote,
    is_space_or_tab, is_tag_break, is_value_end, is_value_excluded, is_whitespace, name_end, peek,
};
use lexical::constant::{
    HTML_CDATA_SIZE, HTML_RAW_SIZE_MAX, TAB_SIZE, block_place, cdata_letters, raw_place,
};
use lexical::line::{is_blank, line_end, mark_or_line_end, next_line};
use lexical::slice::from_indices;
use rules::Rules;
use std::error::Error;
use std::fmt;

// In a closing tag, behind its name.
//
//     </x/>
//        ^
#[tactic(auto, unfolding(crate::specs::CompleteMachine::closingTagAfterOf))]
pub(crate) fn complete_closing_tag_after(b: u8) -> State
    ensures { result ≡ closingTagAfterOf b }
{
    if is_whitespace(b) {
        State::Next(StateName::CompleteClosingTagAfter)
    } else {
        complete_end(b)
    }
}

// In an open tag, behind its name or an attribute. F2: a digit may begin a name.
//
//     <a :b>
//        ^
#[tactic(auto, unfolding(crate::specs::CompleteMachine::nameBeforeOf))]
pub(crate) fn complete_attribute_name_before(rules: Rules, b: u8) -> State
    ensures { result ≡ nameBeforeOf rules b }
{
    if is_whitespace(b) {
        State::Next(StateName::CompleteAttributeNameBefore)
    } else if b == b'/' {
        State::Next(StateName::CompleteEnd)
    } else if is_name_start(rules.f2, b) {
        State::Next(StateName::CompleteAttributeName)
    } else {
        complete_end(b)
    }
}

// In an attribute's name.
//
//     <a :b>
//         ^
#[tactic(auto, unfolding(crate::specs::CompleteMachine::nameOf))]
pub(crate) fn complete_attribute_name(rules: Rules, b: u8) -> State
    ensures { result ≡ nameOf rules b }
{
    if is_attribute_name_byte(b) {
        State::Next(StateName::CompleteAttributeName)
    } else {
        complete_attribute_name_after(rules, b)
    }
}

// After an attribute's name: `=`, the end of the tag, or another attribute.
//
//     <a b = c>
//         ^
#[tactic(auto, unfolding(crate::specs::CompleteMachine::nameAfterOf))]
pub(crate) fn complete_attribute_name_after(rules: Rules, b: u8) -> State
    ensures { result ≡ nameAfterOf rules b }
{
    if is_whitespace(b) {
        State::Next(StateName::CompleteAttributeNameAfter)
    } else if b == b'=' {
        State::Next(StateName::CompleteAttributeValueBefore)
    } else {
        complete_attribute_name_before(rules, b)
    }
}

// After `=`: a value, quoted or not.
//
//     <a b=c>
//          ^
#[tactic(auto, unfolding(crate::specs::CompleteMachine::valueBeforeOf))]
pub(crate) fn complete_attribute_value_before(rules: Rules, b: u8) -> State
    ensures { result ≡ valueBeforeOf rules b }
{
    if is_whitespace(b) {
        State::Next(StateName::CompleteAttributeValueBefore)
    } else if is_quote(b) {
        State::Next(StateName::CompleteAttributeValueQuoted(b))
    } else if is_value_excluded(b) {
        State::Nok
    } else {
        complete_attribute_value_unquoted(rules, b)
    }
}

// In a quoted value.
//
//     <a b="c">
//           ^
#[tactic(auto, unfolding(crate::specs::CompleteMachine::valueQuotedOf))]
pub(crate) fn complete_attribute_value_quoted(marker: u8, b: u8) -> State
    ensures { result ≡ valueQuotedOf marker b }
{
    if b == marker {
        State::Next(StateName::CompleteAttributeValueQuotedAfter)
    } else {
        State::Next(StateName::CompleteAttributeValueQuoted(marker))
    }
}

// In an unquoted value. F4: it holds no `/`. F5: a further value may follow.
//
//     <a b=c>
//          ^
#[tactic(auto, unfolding(crate::specs::CompleteMachine::valueUnquotedOf))]
pub(crate) fn complete_attribute_value_unquoted(rules: Rules, b: u8) -> State
    ensures { result ≡ valueUnquotedOf rules b }
{
    if is_value_end(rules.f4, b) {
        if rules.f5 {
            complete_attribute_name_after(rules, b)
        } else {
            complete_attribute_value_quoted_after(rules, b)
        }
    } else {
        State::Next(StateName::CompleteAttributeValueUnquoted)
    }
}

// After a quoted value: whitespace or the end of the tag.
//
//     <a b="c">
//             ^
#[tactic(auto, unfolding(crate::specs::CompleteMachine::valueQuotedAfterOf))]
pub(crate) fn complete_attribute_value_quoted_after(rules: Rules, b: u8) -> State
    ensures { result ≡ valueQuotedAfterOf rules b }
{
    if is_tag_break(b) {
        complete_attribute_name_before(rules, b)
    } else {
        State::Nok
    }
}

// The closing `>`.
//
//     <a b="c">
//             ^
#[tactic(auto, unfolding(crate::specs::CompleteMachine::endOf))]
pub(crate) fn complete_end(b: u8) -> State
    ensures { result ≡ endOf b }
{
    match b {
        b'>' => State::Next(StateName::CompleteAfter),
        _ => State::Nok,
    }
}

// After `>`: only spaces and tabs, to the end of the line.
//
//     <x>
//        ^
#[tactic(auto, unfolding(crate::specs::CompleteMachine::afterOf))]
pub(crate) fn complete_after(b: u8) -> State
    ensures { result ≡ afterOf b }
{
    if is_space_or_tab(b) {
        State::Next(StateName::CompleteAfter)
    } else if is_line_ending_byte(b) {
        State::Ok
    } else {
        State::Nok
    }
}

// The kinds of blocks, with their numbers.
#[derive(Clone, Copy, Debug, PartialEq, Eq)]
pub enum Kind {
    Raw = 1,
    Comment = 2,
    Instruction = 3,
    Declaration = 4,
    Cdata = 5,
    Basic = 6,
    Complete = 7,
}

impl From<Kind> for u8 {
    ghost from_gives = { λ kind number. number ≡ kindNumber kind };

    fn from(kind: Kind) -> u8 {
        kind as u8
    }
}

// A number that is no kind's.
#[derive(Clone, Copy, Debug, PartialEq, Eq)]
pub struct UnknownKind {
    pub number: u8,
}

impl fmt::Display for UnknownKind {
    fn fmt<W: fmt::Write>(&self, f: &mut fmt::Formatter<W>) -> fmt::Result {
        write!(f, "no kind has the number {}", self.number)
    }
}

impl Error for UnknownKind {}

impl TryFrom<u8> for Kind {
    type Error = UnknownKind;

    ghost try_from_gives = { λ number result. (kind : Kind) → (result ≡ Ok kind ↔ kindNumber kind ≡ number) };

    fn try_from(number: u8) -> Result<Kind, UnknownKind> {
        match number {
            1 => Ok(Kind::Raw),
            2 => Ok(Kind::Comment),
            3 => Ok(Kind::Instruction),
            4 => Ok(Kind::Declaration),
            5 => Ok(Kind::Cdata),
            6 => Ok(Kind::Basic),
            7 => Ok(Kind::Complete),
            _ => Err(UnknownKind { number }),
        }
    }
}

// Where a line of kinds 2 to 5 stands on the way to its closer.
#[derive(Clone, Copy, Debug, PartialEq, Eq)]
pub enum ContinuationName {
    Continuation,
    ContinuationCommentInside,
    ContinuationCdataInside,
    ContinuationDeclarationInside,
    ContinuationClose,
}

// In a block of kinds 2 to 5, before its closer.
//
//     <!--xxx-->
//         ^
#[tactic(auto, unfolding(crate::specs::ContinuationMachine::continuationOf))]
fn continuation(kind: Kind, b: u8) -> ContinuationName
    ensures { result ≡ continuationOf kind b }
{
    match (kind, b) {
        (Kind::Comment, b'-') => ContinuationName::ContinuationCommentInside,
        (Kind::Instruction, b'?') => ContinuationName::ContinuationDeclarationInside,
        (Kind::Declaration, b'>') => ContinuationName::ContinuationClose,
        (Kind::Cdata, b']') => ContinuationName::ContinuationCdataInside,
        _ => ContinuationName::Continuation,
    }
}

// In a comment, after one `-`.
//
//     <!--xxx-->
//             ^
#[tactic(auto, unfolding(crate::specs::ContinuationMachine::commentInsideOf))]
fn continuation_comment_inside(kind: Kind, b: u8) -> ContinuationName
    ensures { result ≡ commentInsideOf kind b }
{
    if b == b'-' {
        ContinuationName::ContinuationDeclarationInside
    } else {
        continuation(kind, b)
    }
}

// In CDATA, after one `]`.
//
//     <![CDATA[>&<]]>
//                  ^
#[tactic(auto, unfolding(crate::specs::ContinuationMachine::cdataInsideOf))]
fn continuation_cdata_inside(kind: Kind, b: u8) -> ContinuationName
    ensures { result ≡ cdataInsideOf kind b }
{
    if b == b']' {
        ContinuationName::ContinuationDeclarationInside
    } else {
        continuation(kind, b)
    }
}

// Whether one more `-`, or `]`, leaves the closer possible. F1: a run of `]` counts from its start again.
fn stays_before_end(rules: Rules, kind: Kind, b: u8) -> bool
    ensures { result ≡ stays rules kind b }
{
    match kind {
        Kind::Comment => b == b'-',
        Kind::Cdata => (b == b']') & !rules.f1,
        _ => false,
    }
}

// Before the `>` of a closer.
//
//     <!--xxx-->
//              ^
//     <?xxx?>
//           ^
//     <![CDATA[>&<]]>
//                   ^
#[tactic(auto, unfolding(crate::specs::ContinuationMachine::declarationInsideOf))]
fn continuation_declaration_inside(rules: Rules, kind: Kind, b: u8) -> ContinuationName
    ensures { result ≡ declarationInsideOf rules kind b }
{
    if stays_before_end(rules, kind, b) {
        ContinuationName::ContinuationDeclarationInside
    } else if b == b'>' {
        ContinuationName::ContinuationClose
    } else {
        continuation(kind, b)
    }
}

// After the closer: the rest of its line belongs to the block.
//
//     <!--xxx--> x
//               ^
fn continuation_close() -> ContinuationName
    ensures { result ≡ ContinuationClose }
{
    ContinuationName::ContinuationClose
}

// The function that the name spells, on the byte.
pub fn continuation_step(
    rules: Rules,
    kind: Kind,
    name: ContinuationName,
    b: u8,
) -> ContinuationName
    ensures { result ≡ nextOf rules kind name b }
{
    match name {
        ContinuationName::Continuation => continuation(kind, b),
        ContinuationName::ContinuationCommentInside => continuation_comment_inside(kind, b),
        ContinuationName::ContinuationCdataInside => continuation_cdata_inside(kind, b),
        ContinuationName::ContinuationDeclarationInside => continuation_declaration_inside(
            rules, kind, b,
        ),
        ContinuationName::ContinuationClose => continuation_close(),
    }
}

// Whether a closer was met.
pub fn is_close(name: ContinuationName) -> bool
    ensures { result ≡ isClose name }
{
    name == ContinuationName::ContinuationClose
}

// Whether the last byte was not of a closer.
fn is_continuation(name: ContinuationName) -> bool
    ensures { result ≡ isContinuation name }
{
    name == ContinuationName::Continuation
}

// The first byte of the closer of kinds 2 to 5; LF for the others.
fn closer_start(kind: Kind) -> u8
    ensures { result ≡ closerStart kind }
{
    match kind {
        Kind::Comment => b'-',
        Kind::Instruction => b'?',
        Kind::Declaration => b'>',
        Kind::Cdata => b']',
        Kind::Raw | Kind::Basic | Kind::Complete => b'\n',
    }
}

// How many bytes the closer of kinds 2 to 5 has; 0 for the others.
fn closer_length(kind: Kind) -> usize
    ensures { result ≡ closerLength kind }
{
    match kind {
        Kind::Comment => 3,
        Kind::Instruction => 2,
        Kind::Declaration => 1,
        Kind::Cdata => 3,
        Kind::Raw | Kind::Basic | Kind::Complete => 0,
    }
}

// Where the closer begins in a line of kinds 2 to 5; where it has none, the line's end.
fn find_closer(rules: Rules, kind: Kind, line: &[u8]) -> usize
    ensures { result ≡ closedAt rules kind Continuation 0 line.now }
{
    let mark = closer_start(kind);
    let mut name = ContinuationName::Continuation;
    let mut i = mark_or_line_end(line, 0, mark);
    while i < line.len() {
        name = continuation_step(rules, kind, name, line[i]);
        i += 1;
        if is_close(name) {
            return i - closer_length(kind);
        }
        if is_continuation(name) {
            i = mark_or_line_end(line, i, mark);
        }
    }
    i
}

// In a raw end tag whose name begins at start and has its letters before at; so many more are allowed.
//
//     <script>xxx</script>
//                  ^
fn continuation_raw_end_tag(line: &[u8], start: usize, at: usize, allowed: usize) -> bool
    requires { start ≤ at }
    ensures { result ≡ rawEndOf allowed (drop start line.now) (at - start) }
{
    match peek(line, at) {
        Some(b'>') => raw_place(from_indices(line, start, at)).is_some(),
        Some(b) if is_letter(b) && allowed > 0 => continuation_raw_end_tag(
            line,
            start,
            at + 1,
            allowed - 1,
        ),
        _ => false,
    }
}

// After `<` in a raw block: whether a raw end tag stands there.
//
//     <script>xxx</script>
//                 ^
fn continuation_raw_tag_open(line: &[u8], at: usize) -> bool
    requires { at < length line.now }
    ensures { result ≡ isRawEnd (drop at line.now) }
{
    line[at] == b'<'
        && peek(line, at + 1) == Some(b'/')
        && continuation_raw_end_tag(line, at + 2, at + 2, HTML_RAW_SIZE_MAX)
}

// Where a raw end tag begins in a line of a raw block; where it has none, the line's end.
fn find_raw_end_tag(line: &[u8]) -> usize
    ensures { result ≡ standsBefore isRawEnd line.now }
{
    let mut i = mark_or_line_end(line, 0, b'<');
    while i < line.len() {
        if continuation_raw_tag_open(line, i) {
            return i;
        }
        i = mark_or_line_end(line, i + 1, b'<');
    }
    i
}

// How many bytes of a line stand before the closer of its block; where it has none, all.
pub fn before_closer(rules: Rules, kind: Kind, line: &[u8]) -> usize
    ensures { result ≡ beforeCloser rules (kindNumber kind) line.now }
{
    match kind {
        Kind::Raw => find_raw_end_tag(line),
        // An arm for each of the four: the compiler then makes the search for that kind alone, which is faster.
        Kind::Comment => find_closer(rules, kind, line),
        Kind::Instruction => find_closer(rules, kind, line),
        Kind::Declaration => find_closer(rules, kind, line),
        Kind::Cdata => find_closer(rules, kind, line),
        Kind::Basic | Kind::Complete => line.len(),
    }
}

// Whether a line has the closer of its block.
pub fn closes_line(rules: Rules, kind: Kind, line: &[u8]) -> bool
    ensures { result ≡ closes rules (kindNumber kind) line.now }
{
    before_closer(rules, kind, line) < line.len()
}

// Whether the line's flag lets kind 7 start. F6: interrupt refuses it exactly when not lazy.
fn may_start(rules: Rules, flag: u8) -> bool
    ensures { result ≡ mayStart rules flag }
{
    !is_interrupt(flag) | (rules.f6 & is_lazy(flag))
}

// Whether what follows a tag's name completes the tag and fills the line. F3: raw names before a direct `/` too.
fn completes(rules: Rules, line: &[u8], at: usize, closing: bool, raw: bool) -> bool
    ensures { result ≡ completesOf rules closing raw (drop at line.now) }
{
    if closing {
        run_complete(rules, line, at, StateName::CompleteClosingTagAfter)
    } else {
        (rules.f3 | !raw)
            && run_complete(
                rules,
                line,
                at,
                StateName::CompleteAttributeValueQuotedAfter,
            )
    }
}

// After a tag's name that is neither raw nor a block name: a complete tag.
#[tactic(auto, unfolding(crate::specs::OpenMachine::completeOf))]
fn complete(
    rules: Rules,
    line: &[u8],
    at: usize,
    closing: bool,
    raw: bool,
    flag: u8,
) -> Option<Opening>
    ensures kind { openingNumber result ≡ completeOf rules flag closing raw (drop at line.now) }
    ensures unnamed { Unnamed result }
{
    if may_start(rules, flag) && completes(rules, line, at, closing, raw) {
        return Some(Opening {
            kind: Kind::Complete,
            name: None,
        });
    }
    None
}

// After a block name and `/`: only `>` goes on.
//
//     <div/>
//          ^
fn basic_self_closing(line: &[u8], at: usize, name: Option<u8>) -> Option<Opening>
    requires { isPlace name ≡ true }
    ensures kind { openingNumber result ≡ selfClosingOf (drop at line.now) }
    ensures names_basic { NamesBasic result name }
{
    if peek(line, at) == Some(b'/') && peek(line, at + 1) == Some(b'>') {
        return Some(Opening {
            kind: Kind::Basic,
            name,
        });
    }
    None
}

// In a tag's name, which begins at an index: what the name opens.
//
//     <ab>
//      ^^
fn tag_name(rules: Rules, line: &[u8], at: usize, closing: bool, flag: u8) -> Option<Opening>
    ensures kind { openingNumber result ≡ tagNameOf rules flag closing (tagNameIn (drop at line.now)) (afterName (drop at line.now)) }
    ensures names { Names result (tagNameIn (drop at line.now)) }
{
    let end = name_end(line, at);
    if !is_name_break(line, end) {
        return None;
    }
    let name = from_indices(line, at, end);
    let raw = raw_place(name);
    let is_raw = raw.is_some();
    let slash = peek(line, end) == Some(b'/');
    if is_raw & (!closing & !slash) {
        return Some(Opening {
            kind: Kind::Raw,
            name: raw,
        });
    }
    let basic = block_place(name);
    if basic.is_some() {
        if slash {
            return basic_self_closing(line, end, basic);
        }
        return Some(Opening {
            kind: Kind::Basic,
            name: basic,
        });
    }
    complete(rules, line, end, closing, is_raw, flag)
}

// After `</`: a closing tag's name.
//
//     </x>
//       ^
fn tag_close_start(rules: Rules, line: &[u8], at: usize, flag: u8) -> Option<Opening>
    ensures kind { openingNumber result ≡ tagCloseStartOf rules flag (drop at line.now) }
    ensures names { Names result (tagNameIn (drop at line.now)) }
{
    match peek(line, at) {
        Some(b) if is_letter(b) => tag_name(rules, line, at, true, flag),
        _ => None,
    }
}

// After `<![`: whether the rest of `CDATA[` follows.
//
//     <![CDATA[>&<]]>
//        ^^^^^^
fn cdata_open_inside(line: &[u8], at: usize) -> bool
    ensures { result ≡ begins cdataPrefix (drop at line.now) }
{
    cdata_letters(line, at, 0) == HTML_CDATA_SIZE
}

// After `<!-`: another `-`.
//
//     <!--xxx-->
//        ^
fn comment_open_inside(line: &[u8], at: usize) -> Option<Opening>
    ensures kind { openingNumber result ≡ commentOpenOf (drop at line.now) }
    ensures unnamed { Unnamed result }
{
    if peek(line, at) == Some(b'-') {
        return Some(Opening {
            kind: Kind::Comment,
            name: None,
        });
    }
    None
}

// After `<!`: a comment, a declaration or CDATA.
//
//     <!doctype>
//       ^
fn declaration_open(line: &[u8], at: usize) -> Option<Opening>
    ensures kind { openingNumber result ≡ declarationOpenOf (drop at line.now) }
    ensures unnamed { Unnamed result }
{
    match peek(line, at) {
        Some(b'-') => comment_open_inside(line, at + 1),
        Some(b'[') => if cdata_open_inside(line, at + 1) {
            Some(Opening {
                kind: Kind::Cdata,
                name: None,
            })
        } else {
            None
        },
        Some(b) if is_letter(b) => Some(Opening {
            kind: Kind::Declaration,
            name: None,
        }),
        _ => None,
    }
}

// After `<`: a tag name, or what opens something else.
//
//     <x>
//      ^
//     <!doctype>
//      ^
//     <!--xxx-->
//      ^
fn open(rules: Rules, line: &[u8], at: usize, flag: u8) -> Option<Opening>
    ensures kind { openingNumber result ≡ openOf rules flag (drop at line.now) }
    ensures names { Names result (tagName (byte "<" ∷ drop at line.now)) }
{
    match peek(line, at) {
        Some(b'!') => declaration_open(line, at + 1),
        Some(b'/') => tag_close_start(rules, line, at + 1, flag),
        Some(b'?') => Some(Opening {
            kind: Kind::Instruction,
            name: None,
        }),
        Some(b) if is_letter(b) => tag_name(rules, line, at, false, flag),
        _ => None,
    }
}

// After the indentation: `<`.
//
//       <x>
//       ^
fn before(rules: Rules, line: &[u8], at: usize, flag: u8) -> Option<Opening>
    ensures kind { openingNumber result ≡ kindAt rules flag (drop at line.now) }
    ensures names { Names result (tagName (drop at line.now)) }
{
    if peek(line, at) == Some(b'<') {
        return open(rules, line, at + 1, flag);
    }
    None
}

// Start of a line: the kind of block that it opens, with the place of its name.
//
//       <x>
//     ^
pub(crate) fn start(rules: Rules, line: &[u8], flag: u8) -> Option<Opening>
    ensures kind { openingNumber result ≡ kindOf rules (lineOf flag [] line.now) }
    ensures name { openingName result ≡ placeOf (openingNumber result) (lineOf flag [] line.now) }
{
    let indent = inside(line, 0);
    if indent >= TAB_SIZE {
        return None;
    }
    before(rules, line, indent, flag)
}

// At the end of the content: the block.
//
//     <!---->
//            ^
pub(crate) fn continuation_after(opening: Opening, stop: usize, closer: Option<usize>) -> Block
    ensures { foundOf (Some result) ≡ foundBlock (found (openingNumber (Some opening)) (openingName (Some opening)) stop (is_some closer) (unwrap_or closer stop)) }
{
    Block {
        kind: opening.kind,
        name: opening.name,
        stop,
        closer,
    }
}

// Before a line of kind 6 or 7: whether it is blank.
//
//     <div>
//          ^
fn blank_line_before(kind: Kind, line: &[u8]) -> bool
    ensures { result ≡ blankLineBefore (kindNumber kind) line.now }
{
    matches!(kind, Kind::Basic | Kind::Complete) && is_blank(line, 0)
}

// Whether a block ends in front of a line.
fn ends_before(kind: Kind, flag: u8, line: &[u8]) -> bool
    ensures { result ≡ endsBefore (kindNumber kind) (lineOf flag [] line.now) }
{
    is_lazy(flag) | blank_line_before(kind, line)
}

// At a line ending: past it.
//
//     <!--
//         ^
//     asd
fn continuation_start_non_lazy(bulletin: &[u8], stop: usize) -> usize
    ensures { result ≡ lineFrom bulletin.now stop }
{
    next_line(bulletin, stop)
}

// At the first byte of a line: its content.
//
//     <!--
//     asd
//     ^^^
fn continuation_before(bulletin: &[u8], from: usize) -> &[u8]
    ensures { result.now ≡ contentFrom bulletin.now from }
{
    from_indices(bulletin, from, line_end(bulletin, from))
}

// At the end of the content so far, an index: how far the block goes. The next line's number is passed in.
//
//     <!--
//         ^
//     asd
pub(crate) fn continuation_start(
    rules: Rules,
    opening: Opening,
    bulletin: &[u8],
    flags: &[u8],
    index: usize,
    line: usize,
) -> Block
    ensures { foundOf (Some result) ≡ continuationStartOf rules (openingNumber (Some opening)) (openingName (Some opening)) bulletin.now flags.now index line }
{
    let mut stop = index;
    let mut number = line;
    while stop < bulletin.len() {
        let from = continuation_start_non_lazy(bulletin, stop);
        if from == stop {
            return continuation_after(opening, stop, None);
        }
        let content = continuation_before(bulletin, from);
        if ends_before(opening.kind, flag_at(flags, number), content) {
            return continuation_after(opening, stop, None);
        }
        stop = from + content.len();
        let at = before_closer(rules, opening.kind, content);
        if at < content.len() {
            return continuation_after(opening, stop, Some(from + at));
        }
        number = next_number(flags, number);
    }
    continuation_after(opening, stop, None)
}
