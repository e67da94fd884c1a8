// event.rs: a place in a text.
ghost use Rattle.std.specs.Prelude.{◌≡◌};
ghost use Rattle.lexical.specs.Point.{start};

#[derive(Clone, Copy, Debug, PartialEq, Eq)]
pub struct Point {
    // Counted from 1.
    pub line: usize,
    // Counted from 1. A tab counts up to the next tab stop.
    pub column: usize,
    // Counted from 0.
    pub index: usize,
    // The readings already made of a tab at the index.
    pub vs: usize,
}

impl Point {
    // Where a text begins.
    pub fn start() -> Self
        ensures { result ≡ start }
    {
        Point {
            line: 1,
            column: 1,
            index: 0,
            vs: 0,
        }
    }
}
