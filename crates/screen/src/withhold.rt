// Withholding: a bulletin is shown without its raw HTML. Its spans are found, and then it is shown beside them.
ghost use Rattle.std.specs.Prelude.{◌≡◌, length};
ghost use Rattle.rules.specs.Withhold.{shown, written};
ghost use Rattle.rules.specs.Spans.{foundSpans, withhold as withholdOf, withholdRefusal};
ghost use Rattle.screen.specs.Answer.{shownOf};

use crate::find::{fill, has_room};
use flow::scan::check_bulletin;
use rules::Rules;
use rules::refusal::Refusal;
use spans::list::SPAN_NUMBERS;
use spans::show::show;
use walk::bulletin::Bulletin;

// The shown length, and the number of pieces withheld.
#[derive(Clone, Copy, Debug, PartialEq, Eq)]
pub struct Withheld {
    pub length: usize,
    pub pieces: usize,
}

// Shows a bulletin without its raw HTML, in any reading, with the spans of what is withheld in a list.
pub fn withhold(
    rules: Rules,
    bulletin: &[u8],
    flags: &[u8],
    list: &mut [u32],
    out: &mut [u8],
) -> Result<Withheld, Refusal>
    ensures answer { shownOf result ≡ withholdOf rules bulletin.now flags.now (length list.old) (length out.old) }
    ensures list { list.new ≡ written (withholdRefusal rules bulletin.now flags.now (length list.old) (length out.old)) (foundSpans rules bulletin.now flags.now) list.old }
    ensures buffer { out.new ≡ written (withholdRefusal rules bulletin.now flags.now (length list.old) (length out.old)) (shown rules bulletin.now flags.now) out.old }
{
    check_bulletin(bulletin, flags)?;
    let whole = Bulletin {
        rules,
        text: bulletin,
        flags,
    };
    // A refusal leaves the list as it is, so that the room for what is shown comes first.
    if !has_room(whole, list.len(), out.len()) {
        return Err(Refusal::NoRoom);
    }
    let pieces = fill(whole, list);
    let length = show(bulletin, &list[..SPAN_NUMBERS * pieces], out)?;
    Ok(Withheld { length, pieces })
}
