// Two runs of withholding, which show that what is private stays so.
ghost use Rattle.std.specs.Prelude.{◌≡◌, length};
ghost use Rattle.rules.specs.Withhold.{shown, written};
ghost use Rattle.rules.specs.Spans.{foundSpans, withhold as withholdOf, withholdRefusal};
ghost use Rattle.screen.specs.Answer.{shownOf};
ghost use Rattle.screen.specs.Both.{Alike};

use crate::withhold::{Withheld, withhold};
use rules::Rules;
use rules::refusal::Refusal;

// The answers of two runs.
#[derive(Clone, Copy, Debug, PartialEq, Eq)]
pub struct Both {
    pub one: Result<Withheld, Refusal>,
    pub two: Result<Withheld, Refusal>,
}

// Withholds from two bulletins with the same flags, in any reading, each into its own list and buffer. Where they differ only in private pieces, any number of them, each
// of which run one withholds, and neither is refused, both show the same bytes, the same length and the same count, whatever stood in the buffers.
pub fn withhold_both(
    rules: Rules,
    one: &[u8],
    two: &[u8],
    flags: &[u8],
    first_list: &mut [u32],
    first: &mut [u8],
    second_list: &mut [u32],
    second: &mut [u8],
) -> Both
    ensures one { shownOf result.one ≡ withholdOf rules one.now flags.now (length first_list.old) (length first.old) }
    ensures two { shownOf result.two ≡ withholdOf rules two.now flags.now (length second_list.old) (length second.old) }
    ensures first_list { first_list.new ≡ written (withholdRefusal rules one.now flags.now (length first_list.old) (length first.old)) (foundSpans rules one.now flags.now) first_list.old }
    ensures first { first.new ≡ written (withholdRefusal rules one.now flags.now (length first_list.old) (length first.old)) (shown rules one.now flags.now) first.old }
    ensures second_list { second_list.new ≡ written (withholdRefusal rules two.now flags.now (length second_list.old) (length second.old)) (foundSpans rules two.now flags.now) second_list.old }
    ensures second { second.new ≡ written (withholdRefusal rules two.now flags.now (length second_list.old) (length second.old)) (shown rules two.now flags.now) second.old }
    ensures alike { Alike rules flags.now one.now two.now (shownOf result.one) (shownOf result.two) first.new second.new }
{
    let a = withhold(rules, one, flags, first_list, first);
    let b = withhold(rules, two, flags, second_list, second);
    Both { one: a, two: b }
}
