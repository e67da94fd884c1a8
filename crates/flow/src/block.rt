// What a line opens, and the block that it is.
ghost use Rattle.std.specs.Prelude.{◌≡◌, true};
ghost use Rattle.flow.specs.Place.{isPlace};

use crate::html_flow::Kind;

// What a line opens: its kind, and the place of its name in the list of that kind, if it has one.
#[derive(Clone, Copy, Debug, PartialEq, Eq)]
pub struct Opening {
    pub kind: Kind,
    pub name: Option<u8>,
    ghost place: { isPlace name ≡ true },
}

// A block that was found: its kind, the place of its name in the list of that kind if it has one, its stop, and where the closer begins if one was met.
#[derive(Clone, Copy, Debug, PartialEq, Eq)]
pub struct Block {
    pub kind: Kind,
    pub name: Option<u8>,
    pub stop: usize,
    pub closer: Option<usize>,
    ghost place: { isPlace name ≡ true },
}
