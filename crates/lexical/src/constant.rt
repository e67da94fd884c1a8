// constant.rs: names, the CDATA prefix and sizes; and the names of GitHub's tag filter.
ghost use Rattle.std.specs.Prelude.{◌≡◌, ◌<◌, [], map, length, drop, nat_lt, slice_index_or};
ghost use Rattle.lexical.specs.Text.{limit};
ghost use Rattle.lexical.specs.Byte.{lower};
ghost use Rattle.lexical.specs.Name.{sameBytes, named, placeFrom, blockPlace, rawPlace, isDisallowedName, blockNames, rawNames, disallowedNames, nameBytes, nameOffsets, cut, GoesTo, LetterTable, cdataPrefix, cdataLetters};

use crate::byte::to_ascii_lowercase;
use std::ops::Range;

// The names that open an HTML block of kind 6, end to end, and where each begins; the last offset is where the last name ends.
const HTML_BLOCK_NAMES: [u8; 294] =
    *b"addressarticleasidebasebasefontblockquotebodycaptioncentercolcolgroupdddetailsdialogdirdivdldtfieldsetfigcaptionfigurefooterformframeframeseth1h2h3h4h5h6headheaderhrhtmliframelegendlilinkmainmenumenuitemnavnoframesoloptgroupoptionpparamsearchsectionsummarytabletbodytdtfootththeadtitletrtrackul";

const HTML_BLOCK_OFFSETS: [u16; 63] = [
    0, 7, 14, 19, 23, 31, 41, 45, 52, 58, 61, 69, 71, 78, 84, 87, 90, 92, 94, 102, 112, 118, 124,
    128, 133, 141, 143, 145, 147, 149, 151, 153, 157, 163, 165, 169, 175, 181, 183, 187, 191, 195,
    203, 206, 214, 216, 224, 230, 231, 236, 242, 249, 256, 261, 266, 268, 273, 275, 280, 285, 287,
    292, 294,
];

// The names that open an HTML block of kind 1, in the same form.
const HTML_RAW_NAMES: [u8; 22] = *b"prescriptstyletextarea";

const HTML_RAW_OFFSETS: [u16; 5] = [0, 3, 9, 14, 22];

// The names that GitHub's tag filter replaces, in the same form.
const DISALLOWED_NAMES: [u8; 57] = *b"iframenoembednoframesplaintextscriptstyletextareatitlexmp";

const DISALLOWED_OFFSETS: [u16; 10] = [0, 6, 13, 21, 30, 36, 41, 49, 54, 57];

// The places where the names of each letter begin in each list, from `a` on, and last where those of `z` end.
const HTML_BLOCK_STARTS: [u8; 27] = [
    0, 3, 7, 11, 18, 18, 25, 25, 35, 36, 36, 36, 39, 42, 44, 47, 49, 49, 49, 52, 61, 62, 62, 62,
    62, 62, 62,
];

const HTML_RAW_STARTS: [u8; 27] = [
    0, 0, 0, 0, 0, 0, 0, 0, 0, 0, 0, 0, 0, 0, 0, 0, 1, 1, 1, 3, 4, 4, 4, 4, 4, 4, 4,
];

const DISALLOWED_STARTS: [u8; 27] = [
    0, 0, 0, 0, 0, 0, 0, 0, 0, 1, 1, 1, 1, 1, 3, 3, 4, 4, 4, 6, 8, 8, 8, 8, 9, 9, 9,
];

// The length of the longest raw name.
pub const HTML_RAW_SIZE_MAX: usize = 8;

// What follows `<![` in a CDATA section's opening.
const HTML_CDATA_PREFIX: [u8; 6] = *b"CDATA[";

// The length of that prefix.
pub const HTML_CDATA_SIZE: usize = 6;

// Columns from one tab stop to the next.
pub const TAB_SIZE: usize = 4;

// The most bytes of a bulletin or a text.
const LIMIT: usize = 1000000;

// Whether the name, in lower case, is the part.
fn same_lower(name: &[u8], part: &[u8]) -> bool
    ensures { result ≡ sameBytes (map lower name.now) part.now }
{
    name.len() == part.len()
        && name
            .iter()
            .zip(part.iter())
            .all(|(a, b)| to_ascii_lowercase(*a) == *b)
}

// A list of names, end to end, with the offsets that cut them and the places where the names of each letter begin, from `a` on, and last where those of `z` end.
#[derive(Clone, Copy)]
struct NameTable {
    names: &'static [u8],
    offsets: &'static [u16],
    starts: &'static [u8],
    ghost by_letter: { LetterTable names.now offsets.now starts.now },
}

impl NameTable {
    // The name at a place.
    fn name(&self, place: u8) -> &[u8]
        requires { place < length (cut self.now.names.now self.now.offsets.now) }
        ensures { result.now ≡ slice_index_or (cut self.now.names.now self.now.offsets.now) place [] }
    {
        let k = place as usize;
        &self.names[self.offsets[k] as usize..self.offsets[k + 1] as usize]
    }

    // The places of the names that begin with a byte, in either case.
    fn letter_places(&self, first: u8) -> Range<u8>
        ensures { GoesTo self.now.starts.now (lower first) result.start result.end }
    {
        let lower = to_ascii_lowercase(first);
        if (b'a' <= lower) & (lower <= b'z') {
            let letter = (lower - b'a') as usize;
            return self.starts[letter]..self.starts[letter + 1];
        }
        0..0
    }

    // The place of the name, in lower case: it is held only against the names that begin as it does.
    fn place(&self, name: &[u8]) -> Option<u8>
        ensures { result ≡ named (placeFrom 0 (map lower name.now) (cut self.now.names.now self.now.offsets.now)) }
    {
        if name.is_empty() {
            return None;
        }
        for place in self.letter_places(name[0]) {
            if same_lower(name, self.name(place)) {
                return Some(place);
            }
        }
        None
    }
}

fn block_table() -> NameTable
    ensures names { cut result.names.now result.offsets.now ≡ blockNames }
    ensures bytes { result.names.now ≡ nameBytes blockNames }
    ensures offsets { result.offsets.now ≡ nameOffsets 0 blockNames }
{
    NameTable {
        names: &HTML_BLOCK_NAMES,
        offsets: &HTML_BLOCK_OFFSETS,
        starts: &HTML_BLOCK_STARTS,
    }
}

fn raw_table() -> NameTable
    ensures names { cut result.names.now result.offsets.now ≡ rawNames }
    ensures bytes { result.names.now ≡ nameBytes rawNames }
    ensures offsets { result.offsets.now ≡ nameOffsets 0 rawNames }
{
    NameTable {
        names: &HTML_RAW_NAMES,
        offsets: &HTML_RAW_OFFSETS,
        starts: &HTML_RAW_STARTS,
    }
}

fn disallowed_table() -> NameTable
    ensures names { cut result.names.now result.offsets.now ≡ disallowedNames }
    ensures bytes { result.names.now ≡ nameBytes disallowedNames }
    ensures offsets { result.offsets.now ≡ nameOffsets 0 disallowedNames }
{
    NameTable {
        names: &DISALLOWED_NAMES,
        offsets: &DISALLOWED_OFFSETS,
        starts: &DISALLOWED_STARTS,
    }
}

// The place of the bytes among the 62 block names, letter case ignored.
pub fn block_place(name: &[u8]) -> Option<u8>
    ensures { result ≡ named (blockPlace name.now) }
{
    block_table().place(name)
}

// The place of the bytes among the 4 raw names, letter case ignored.
pub fn raw_place(name: &[u8]) -> Option<u8>
    ensures { result ≡ named (rawPlace name.now) }
{
    raw_table().place(name)
}

// Whether the bytes are one of the nine names of GitHub's tag filter, letter case ignored.
pub fn is_disallowed_name(name: &[u8]) -> bool
    ensures { result ≡ isDisallowedName name.now }
{
    disallowed_table().place(name).is_some()
}

fn cdata_prefix() -> &'static [u8]
    ensures { result.now ≡ cdataPrefix }
{
    &HTML_CDATA_PREFIX
}

// How many letters of the CDATA prefix are counted: the carry, and of those behind it as many as stand at an index.
pub fn cdata_letters(bytes: &[u8], index: usize, carry: usize) -> usize
    ensures { result ≡ cdataLetters carry (drop index bytes.now) }
{
    let letters = &cdata_prefix()[carry.min(HTML_CDATA_SIZE)..];
    let rest = &bytes[index.min(bytes.len())..];
    let same = letters
        .iter()
        .zip(rest.iter())
        .take_while(|pair| *pair.1 == *pair.0);
    carry + same.count()
}

// Whether a bulletin or a text has more bytes than are taken.
pub fn is_over_limit(bytes: &[u8]) -> bool
    ensures { result ≡ nat_lt limit (length bytes.now) }
{
    LIMIT < bytes.len()
}
