// A state that is lent to its step and changed, where the Rust has `&mut Tokenizer`.
ghost use Rattle.std.specs.Prelude.{ℕ, ◌≡◌};
ghost use Rattle.rules.specs.declared.Rules.{Rules as RulesOf};

use rules::Rules;

pub trait Lent: Copy {
    // The state after a byte.
    ghost after: { RulesOf → Self → ℕ → Self };

    // The state lent: taken apart, the covered step, the fields stored back.
    fn step(&mut self, rules: Rules, b: u8)
        ensures { self.new ≡ after rules self.old b };

    // The state after a byte, by value over the lent step.
    fn stepped(self, rules: Rules, b: u8) -> Self
        ensures { result ≡ after rules self b }
    {
        let mut lent = self;
        lent.step(rules, b);
        lent
    }
}
