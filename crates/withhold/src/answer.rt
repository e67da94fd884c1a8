// What the program shows of a bulletin.
ghost use Rattle.std.specs.Prelude.{◌≡◌, length};
ghost use Rattle.screen.specs.Answer.{shownOf};
ghost use Rattle.withhold.specs.Answer.{answerOf, bufferOf};

use lexical::line::count_lines;
use lexical::slice::from_indices;
use rules::crate_rules;
use rules::refusal::Refusal;
use screen::withhold::{Withheld, withhold};
use spans::list::SPAN_NUMBERS;

// How many bytes a bulletin has at most: fewer than the library takes.
pub(crate) const LIMIT: usize = 16000;

// Room for the spans of any bulletin: of its pieces each has a byte, and three numbers.
const LIST: usize = SPAN_NUMBERS * LIMIT;

// Withholds from a bulletin all of whose flags are 0, unless it is too long.
pub(crate) fn answer(bulletin: &[u8], out: &mut [u8]) -> Result<Withheld, Refusal>
    ensures answer { shownOf result ≡ answerOf bulletin.now (length out.old) }
    ensures buffer { out.new ≡ bufferOf bulletin.now out.old }
{
    if bulletin.len() > LIMIT {
        return Err(Refusal::TooLong);
    }
    // There is one line more than there are line endings.
    let flags = [0u8; LIMIT + 1];
    let lines = count_lines(bulletin);
    let mut list = [0u32; LIST];
    withhold(
        crate_rules(),
        bulletin,
        from_indices(&flags, 0, lines),
        &mut list,
        out,
    )
}
