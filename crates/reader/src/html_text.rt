// html_text.rs: the inline scanner's state, lent and changed, where the Rust has `&mut Tokenizer`.
ghost use Rattle.std.specs.Prelude.{◌≡◌, ◌≤◌, length, drop};
ghost use Rattle.rules.specs.Scan.{inlineAnswer, inlineAt};
ghost use Rattle.html.specs.Answer.{inlineOf};
ghost use Rattle.html.specs.TextMachine.{runOf};
ghost use Rattle.reader.specs.Lent.{scannerOf};

use crate::lent::Lent;
use html::tokenizer::{Inline, State, StateName};
use rules::Rules;

// Whether a scan goes on, took its last byte, or met a byte that it does not take.
#[derive(Clone, Copy, Debug, PartialEq, Eq)]
pub enum Status {
    Going,
    Ok,
    Nok,
}

// The state of a scan. One that has ended keeps its state and its size, which `State` does not hold then.
#[derive(Clone, Copy, Debug, PartialEq, Eq)]
pub struct Scanner {
    pub state: StateName,
    pub size: u8,
    pub status: Status,
}

impl Scanner {
    // The scanner after a byte. One that has ended stays as it is.
    #[tactic(auto, unfolding(crate::specs::Lent::scannerOf))]
    fn next(self, rules: Rules, b: u8) -> Scanner
        ensures { result ≡ scannerOf rules self b }
    {
        match self.status {
            Status::Going => match html::tokenizer::step(rules, self.state, self.size, b) {
                State::Next(s, k) => Scanner {
                    state: s,
                    size: k,
                    status: Status::Going,
                },
                State::Ok => Scanner {
                    status: Status::Ok,
                    ..self
                },
                State::Nok => Scanner {
                    status: Status::Nok,
                    ..self
                },
            },
            Status::Ok | Status::Nok => self,
        }
    }
}

impl Lent for Scanner {
    ghost after = { scannerOf };

    fn step(&mut self, rules: Rules, b: u8) {
        let lent = Scanner {
            state: self.state,
            size: self.size,
            status: self.status,
        };
        let after = lent.next(rules, b);
        self.state = after.state;
        self.size = after.size;
        self.status = after.status;
    }
}

// From a state at an index to the end of the text, by the lent step: what the run of the core gives.
fn run(rules: Rules, text: &[u8], from: usize, start: StateName, carry: u8) -> Inline
    ensures { inlineOf result ≡ inlineAnswer (length text.now) (runOf rules start carry (drop from text.now)) }
{
    let mut scanner = Scanner {
        state: start,
        size: carry,
        status: Status::Going,
    };
    for index in from..text.len() {
        scanner = scanner.stepped(rules, text[index]);
        let carry = scanner.size;
        match scanner.status {
            Status::Going => {}
            Status::Ok => {
                let stop = Some(index + 1);
                return Inline { stop, carry };
            }
            Status::Nok => {
                return Inline { stop: None, carry };
            }
        }
    }
    Inline {
        stop: None,
        carry: scanner.size,
    }
}

// What begins at an index, in any reading, by the lent step. Past the end: none. It is promised for every carry that there is, 0 to 5. Without T2 the carry is
// neither read nor changed.
pub fn inline_at(rules: Rules, text: &[u8], index: usize, carry: u8) -> Inline
    ensures { carry ≤ 5 → inlineOf result ≡ inlineAt rules text.now index carry }
{
    let size = if rules.t2 { carry } else { 0 };
    run(rules, text, index, StateName::Start, size).keep(rules, carry)
}
