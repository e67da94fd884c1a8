// What the code shares with the definitions, which are in specs/.
#![tactic(auto)]

pub mod refusal;

ghost use Rattle.std.specs.Prelude.{◌≡◌};
ghost use Rattle.rules.specs.Reading.{crate as ofCrate, standard};

// Which of the eight changes to CommonMark 0.31.2 a reading makes. All on is the reading of the Rust crate; all off is the standard to the letter.
#[derive(Clone, Copy, Debug, PartialEq, Eq)]
pub struct Rules {
    // Kind 5: the closer is `>` behind brackets `]` that are even in number, two or more; all that stand there in a row are counted.
    pub f1: bool,
    // Kind 7: a digit, too, begins an attribute's name.
    pub f2: bool,
    // Kind 7: an open tag may have a raw name where `/` comes right behind it. (Closing tags with a raw name are taken without this change too.)
    pub f3: bool,
    // Kind 7: no `/` belongs to an unquoted value, and such a value can be empty if what follows is `/`, not otherwise.
    pub f4: bool,
    // Kind 7: an unquoted value can be followed by another `=` and value, and spaces or tabs may stand around that `=`.
    pub f5: bool,
    // Kind 7: the flag interrupt keeps it from opening, unless the line is lazy too.
    pub f6: bool,
    // Inline: `/` can be the first byte of an unquoted value, and no other.
    pub t1: bool,
    // Inline: behind `<![` the letters `CDATA[` are compared beginning with the one at the carry.
    pub t2: bool,
}

// The reading of the Rust crate: all eight changes are made.
pub fn crate_rules() -> Rules
    ensures { result ≡ ofCrate }
{
    Rules {
        f1: true,
        f2: true,
        f3: true,
        f4: true,
        f5: true,
        f6: true,
        t1: true,
        t2: true,
    }
}

// The standard reading: none of the changes is made.
pub fn standard_rules() -> Rules
    ensures { result ≡ standard }
{
    Rules {
        f1: false,
        f2: false,
        f3: false,
        f4: false,
        f5: false,
        f6: false,
        t1: false,
        t2: false,
    }
}
