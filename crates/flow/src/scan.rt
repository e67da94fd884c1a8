// The block scan: what is read and given, and what is refused.
ghost use Rattle.std.specs.Prelude.{◌≡◌, leb, drop};
ghost use Rattle.lexical.specs.Name.{all};
ghost use Rattle.rules.specs.Lines.{linesOf};
ghost use Rattle.rules.specs.Refusal.{refusalOf, bulletinRefusal};
ghost use Rattle.rules.specs.Scan.{blockOf, blockScan};
ghost use Rattle.flow.specs.Answer.{foundOf, blockAnswerOf};

use crate::block::Block;
use crate::html_flow::{Kind, before_closer, continuation_after, continuation_start, start};
use crate::partial_non_lazy_continuation::{flag_at, next_number};
use lexical::byte::peek;
use lexical::constant::is_over_limit;
use lexical::line::{count_lines, is_line_start, line_end, space_or_tab_end};
use lexical::slice::from_indices;
use rules::Rules;
use rules::refusal::Refusal;

// The greatest flag: of a line both lazy and with interrupt.
const MAX_FLAG: u8 = 3;

// Whether all flags are 0 to 3.
fn are_flags(flags: &[u8]) -> bool
    ensures { result ≡ all (λ f. leb f 3) flags.now }
{
    flags.iter().all(|flag| *flag <= MAX_FLAG)
}

// What is refused of a bulletin and its flags, whatever is scanned in it.
pub fn check_bulletin(bulletin: &[u8], flags: &[u8]) -> Result<(), Refusal>
    ensures { refusalOf result ≡ bulletinRefusal bulletin.now flags.now }
{
    if is_over_limit(bulletin) {
        return Err(Refusal::TooLong);
    }
    if flags.len() != count_lines(bulletin) {
        return Err(Refusal::WrongCount);
    }
    if !are_flags(flags) {
        return Err(Refusal::WrongFlag);
    }
    Ok(())
}

// The block that the line at an index opens, with the line's number. Past the end: none. It refuses nothing, and is for callers that go line by line and know
// the number of each, as withholding does: an index that is a line's first byte, and a flag for each line. Elsewhere it reads on as if a line began at the
// index, and takes a line without a flag as one with flag 0.
pub fn block_at(
    rules: Rules,
    bulletin: &[u8],
    flags: &[u8],
    index: usize,
    line: usize,
) -> Option<Block>
    ensures { foundOf result ≡ blockOf rules index (linesOf (drop line flags.now) (drop index bulletin.now)) }
{
    // Most lines are passed over here, without looking for their end.
    if peek(bulletin, space_or_tab_end(bulletin, index)) != Some(b'<') {
        return None;
    }
    let stop = line_end(bulletin, index);
    let content = from_indices(bulletin, index, stop);
    let opening = start(rules, content, flag_at(flags, line))?;
    let at = before_closer(rules, opening.kind, content);
    if at < content.len() {
        return Some(continuation_after(opening, stop, Some(index + at)));
    }
    let next = next_number(flags, line);
    Some(continuation_start(rules, opening, bulletin, flags, stop, next))
}

// The block scan.
pub fn block_scan(
    rules: Rules,
    bulletin: &[u8],
    flags: &[u8],
    index: usize,
) -> Result<Option<Block>, Refusal>
    ensures { blockAnswerOf result ≡ blockScan rules bulletin.now flags.now index }
{
    check_bulletin(bulletin, flags)?;
    if !is_line_start(bulletin, index) {
        return Err(Refusal::WrongIndex);
    }
    let line = count_lines(from_indices(bulletin, 0, index)) - 1;
    Ok(block_at(rules, bulletin, flags, index, line))
}
