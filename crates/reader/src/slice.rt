// slice.rs: the borrowed text. A reader holds the text and its index.
ghost use Rattle.std.specs.Prelude.{ℕ, ◌≡◌, drop, unwrap_or};
ghost use Rattle.lexical.specs.Text.{none, first};
ghost use Rattle.rules.specs.Reading.{crate as ofCrate};
ghost use Rattle.rules.specs.Scan.{inlineScan};
ghost use Rattle.html.specs.Answer.{inlineScanOf};
ghost use Rattle.reader.specs.Moved.{movedOf, turnedOf, turnedAt};

use html::scan::inline_scan;
use html::tokenizer::Inline;
use lexical::byte::peek;
use rules::crate_rules;
use rules::refusal::Refusal;

#[derive(Clone, Copy, Debug, PartialEq, Eq)]
pub struct Reader<'a> {
    pub text: &'a [u8],
    pub index: usize,
}

// The index behind what was found. Where nothing was found, or the scan was refused, the index stays, as after an attempt that failed.
pub fn moved(index: usize, answer: Result<Inline, Refusal>) -> usize
    ensures { (carry : ℕ) → result ≡ movedOf index (inlineScanOf carry answer) }
{
    match answer {
        Ok(inline) => inline.stop.unwrap_or(index),
        Err(_) => index,
    }
}

impl<'a> Reader<'a> {
    // A reader at the start of a text.
    //
    //     a <b> c
    //     ^
    pub fn new(text: &'a [u8]) -> Reader<'a>
        ensures { (result.text ≡ text.entry) × (result.index ≡ 0) }
    {
        Reader { text, index: 0 }
    }

    // The same text at another index, which may be past the end.
    //
    //     a <b> c
    //       ^
    pub fn at(self, index: usize) -> Reader<'a>
        ensures { (result.text ≡ self.entry.text) × (result.index ≡ index) }
    {
        Reader { index, ..self }
    }

    // The byte at the index. Past the end: none.
    pub fn byte(self) -> Option<u8>
        ensures { unwrap_or result none ≡ first (drop self.entry.index self.entry.text.now) }
    {
        peek(self.text, self.index)
    }

    // The inline scan at the index.
    pub fn scan(self, carry: u8) -> Result<Inline, Refusal>
        ensures { inlineScanOf carry result ≡ inlineScan ofCrate self.entry.text.now self.entry.index carry }
    {
        inline_scan(crate_rules(), self.text, self.index, carry)
    }

    // The reader moved on past what was found.
    //
    //     a <b> c
    //          ^
    pub fn past(self, answer: Result<Inline, Refusal>) -> Reader<'a>
        ensures { (result.text ≡ self.entry.text) × ((carry : ℕ) → result.index ≡ movedOf self.entry.index (inlineScanOf carry answer)) }
    {
        self.at(moved(self.index, answer))
    }
}

// What the scan at an index finds, where a reader that moves on then stands, and the byte there.
#[derive(Clone, Copy, Debug, PartialEq, Eq)]
pub struct Turn {
    pub answer: Result<Inline, Refusal>,
    pub index: usize,
    pub byte: Option<u8>,
}

// A reader at an index of a text scans and moves on.
pub fn read_at(text: &[u8], index: usize, carry: u8) -> Turn
    ensures { turnedOf carry result ≡ turnedAt text.now index carry }
{
    let here = Reader::new(text).at(index);
    let answer = here.scan(carry);
    let there = here.past(answer);
    Turn {
        answer,
        index: there.index,
        byte: there.byte(),
    }
}
