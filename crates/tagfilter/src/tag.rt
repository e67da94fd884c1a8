// The tags that the filter replaces: Disallowed Raw HTML, 6.11 of the GitHub Flavored Markdown Spec.
ghost use Rattle.std.specs.Prelude.{◌≡◌};
ghost use Rattle.rules.specs.Filter.{endsTagName, disallowedName, isDisallowed};

use lexical::byte::{is_whitespace, name_end};
use lexical::constant::is_disallowed_name;

// Whether a text begins with what must follow a name: a space, a tab, a line ending, `>` or `/>`.
fn ends_tag_name(text: &[u8]) -> bool
    ensures { result ≡ endsTagName text.now }
{
    match text {
        [b'/', b'>', ..] => true,
        [byte, ..] => is_whitespace(*byte) | (*byte == b'>'),
        [] => false,
    }
}

// Whether a text begins with one of the nine names, and what must follow it. It is kept out of the search for `<`, which is faster without it.
//
//     <xmp>
//      ^
#[inline(never)]
fn names_disallowed(text: &[u8]) -> bool
    ensures { result ≡ disallowedName text.now }
{
    let (name, behind) = text.split_at(name_end(text, 0));
    ends_tag_name(behind) && is_disallowed_name(name)
}

// Whether a text begins with a tag that the filter replaces.
//
//     <xmp>
//     ^
//     </xmp>
//     ^
pub(crate) fn is_disallowed(text: &[u8]) -> bool
    ensures { result ≡ isDisallowed text.now }
{
    let Some(tag) = text.strip_prefix(b"<") else {
        return false;
    };
    names_disallowed(tag.strip_prefix(b"/").unwrap_or(tag))
}
