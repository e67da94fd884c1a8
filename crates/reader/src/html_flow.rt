// html_flow.rs: the state of the block scanner's line machine, lent and changed, where the Rust has `&mut Tokenizer`.
ghost use Rattle.std.specs.Prelude.{◌≡◌};
ghost use Rattle.rules.specs.Block.{closes};
ghost use Rattle.flow.specs.Answer.{kindNumber};
ghost use Rattle.flow.specs.ContinuationMachine.{meetsOf};
ghost use Rattle.flow.specs.declared.html_flow.ContinuationName.TheVariants.{Continuation};
ghost use Rattle.reader.specs.Lent.{lineOf};

use crate::lent::Lent;
use flow::html_flow::{ContinuationName, Kind, continuation_step, is_close};
use rules::Rules;

// Where a line of a block stands on the way to its closer.
#[derive(Clone, Copy, Debug, PartialEq, Eq)]
pub struct Line {
    pub kind: Kind,
    pub name: ContinuationName,
}

impl Line {
    // The line after a byte.
    #[tactic(auto, unfolding(crate::specs::Lent::lineOf))]
    fn next(self, rules: Rules, b: u8) -> Line
        ensures { result ≡ lineOf rules self b }
    {
        Line {
            name: continuation_step(rules, self.kind, self.name, b),
            ..self
        }
    }
}

impl Lent for Line {
    ghost after = { lineOf };

    fn step(&mut self, rules: Rules, b: u8) {
        let lent = Line {
            kind: self.kind,
            name: self.name,
        };
        let after = lent.next(rules, b);
        self.kind = after.kind;
        self.name = after.name;
    }
}

// Whether a line of kinds 2 to 5 has the closer, by the lent step: what the run of the core gives.
fn meets_closer(rules: Rules, kind: Kind, line: &[u8]) -> bool
    ensures { result ≡ meetsOf rules kind Continuation line.now }
{
    let mut state = Line {
        kind,
        name: ContinuationName::Continuation,
    };
    for byte in line {
        if is_close(state.name) {
            return true;
        }
        state.step(rules, *byte);
    }
    is_close(state.name)
}

// Whether a line has the closer of its block. A raw end tag is found by its name, with no state kept from byte to byte: that search is the core's.
pub fn closes_line(rules: Rules, kind: Kind, line: &[u8]) -> bool
    ensures { result ≡ closes rules (kindNumber kind) line.now }
{
    match kind {
        Kind::Raw => flow::html_flow::closes_line(rules, kind, line),
        Kind::Comment | Kind::Instruction | Kind::Declaration | Kind::Cdata => meets_closer(
            rules, kind, line,
        ),
        Kind::Basic | Kind::Complete => false,
    }
}
