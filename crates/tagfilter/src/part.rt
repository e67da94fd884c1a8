// A part of a bulletin with `&lt;` for the `<` of each tag that the filter replaces.
ghost use Rattle.std.specs.Prelude.{◌≡◌, ◌+◌, ◌≤◌, length};
ghost use Rattle.lexical.specs.Text.{limit};
ghost use Rattle.tagfilter.specs.Part.{replacedBetween, NextTag, WritesPart};

use crate::tag::is_disallowed;
use lexical::copy::copy_part;
use lexical::line::mark_or_line_end;

// What comes in place of `<`.
const ENTITY: &[u8] = b"&lt;";

// The first tag to be replaced between two indices.
fn next_tag(bulletin: &[u8], index: usize, stop: usize) -> Option<usize>
    requires { (index ≤ stop) × (stop ≤ length bulletin.now) }
    ensures { NextTag bulletin.now index stop result }
{
    let front = &bulletin[..stop];
    let mut i = mark_or_line_end(front, index, b'<');
    while i < stop {
        if is_disallowed(&bulletin[i..]) {
            return Some(i);
        }
        i = mark_or_line_end(front, i + 1, b'<');
    }
    None
}

// How many bytes come in place of those between two indices.
pub(crate) fn part_length(bulletin: &[u8], start: usize, stop: usize) -> usize
    requires within { (start ≤ stop) × (stop ≤ length bulletin.now) }
    requires short { length bulletin.now ≤ limit }
    ensures { result ≡ length (replacedBetween bulletin.now start stop) }
{
    let mut from = start;
    let mut size = stop - start;
    while let Some(tag) = next_tag(bulletin, from, stop) {
        size += ENTITY.len() - 1;
        from = tag + 1;
    }
    size
}

// Writes what comes in place of the bytes between two indices to a place with room for it, and gives the place behind.
pub(crate) fn write_part(
    bulletin: &[u8],
    start: usize,
    stop: usize,
    out: &mut [u8],
    at: usize,
) -> usize
    requires within { (start ≤ stop) × (stop ≤ length bulletin.now) }
    requires room { at + length (replacedBetween bulletin.now start stop) ≤ length out.old }
    ensures { WritesPart out.old at (replacedBetween bulletin.now start stop) out.new result }
{
    let mut from = start;
    let mut size = at;
    while let Some(tag) = next_tag(bulletin, from, stop) {
        copy_part(bulletin, from, tag, out, size);
        let place = size + (tag - from);
        copy_part(ENTITY, 0, ENTITY.len(), out, place);
        size = place + ENTITY.len();
        from = tag + 1;
    }
    copy_part(bulletin, from, stop, out, size);
    size + (stop - from)
}
