// The inline scan: what is read and given, and what is refused.
ghost use Rattle.std.specs.Prelude.{◌≡◌, ◌<◌, length, drop};
ghost use Rattle.rules.specs.Search.{somewhere};
ghost use Rattle.rules.specs.Refusal.{blankFollows, inlineRefusal, refusalOf};
ghost use Rattle.rules.specs.Scan.{inlineAt, inlineScan};
ghost use Rattle.html.specs.Answer.{inlineOf, inlineScanOf};

use crate::tokenizer::{Inline, StateName, run};
use lexical::byte::{is_line_ending_byte, peek};
use lexical::constant::is_over_limit;
use lexical::line::{ends_line, line_end, space_or_tab_end};
use rules::Rules;
use rules::refusal::Refusal;

// A carry counts letters of the CDATA prefix, and never all of them.
const MOST_CARRY: u8 = 5;

// Whether a line ends at an index and only spaces, tabs or no bytes stand before the next line ending.
fn blank_follows(text: &[u8], index: usize) -> bool
    requires { index < length text.now }
    ensures { result ≡ blankFollows (drop index text.now) }
{
    if ends_line(text, index) {
        return peek(text, space_or_tab_end(text, index + 1)).is_some_and(is_line_ending_byte);
    }
    false
}

// Whether two line endings have only spaces, tabs or no bytes between.
fn has_blank_line(text: &[u8]) -> bool
    ensures { result ≡ somewhere blankFollows text.now }
{
    let mut i = line_end(text, 0);
    while i < text.len() {
        if blank_follows(text, i) {
            return true;
        }
        i = line_end(text, i + 1);
    }
    false
}

// Whether a text, an index and a carry are refused, and by what.
fn check_inline(text: &[u8], index: usize, carry: u8) -> Result<(), Refusal>
    ensures { refusalOf result ≡ inlineRefusal text.now index carry }
{
    if is_over_limit(text) {
        return Err(Refusal::TooLong);
    }
    if index > text.len() {
        return Err(Refusal::WrongIndex);
    }
    if carry > MOST_CARRY {
        return Err(Refusal::WrongCarry);
    }
    if has_blank_line(text) {
        return Err(Refusal::BlankLine);
    }
    Ok(())
}

// What begins at an index, in any reading and with carry 0. Past the end: none. It refuses nothing, and is for callers that have a paragraph in hand, as
// withholding does: a text of any length, without a blank line. Of one with a blank line it says what specs/Tag.antt of rules says, not what the standard does.
pub fn inline_at(rules: Rules, text: &[u8], index: usize) -> Inline
    ensures { inlineOf result ≡ inlineAt rules text.now index 0 }
{
    run(rules, text, index, StateName::Start, 0).keep(rules, 0)
}

// The inline scan in any reading. T2: the CDATA prefix is compared from the carry; without it, from its first letter, and the carry is left as passed.
pub fn inline_scan(rules: Rules, text: &[u8], index: usize, carry: u8) -> Result<Inline, Refusal>
    ensures { inlineScanOf carry result ≡ inlineScan rules text.now index carry }
{
    check_inline(text, index, carry)?;
    let size = if rules.t2 { carry } else { 0 };
    Ok(run(rules, text, index, StateName::Start, size).keep(rules, carry))
}
