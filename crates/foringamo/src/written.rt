// What an entry gives that writes.
ghost use Rattle.std.specs.Prelude.{◌≡◌};
ghost use Rattle.rules.specs.Output.{outputOf};
ghost use Rattle.foringamo.specs.Result.{writtenResult};

use rules::refusal::Refusal;

// How much was written, and the refusal of it.
#[repr(C)]
#[derive(Clone, Copy, Debug, PartialEq, Eq)]
pub struct WrittenResult {
    // 0: not refused.
    pub refusal: u8,
    pub length: usize,
}

impl From<Result<usize, Refusal>> for WrittenResult {
    ghost from_gives = { λ answer given. given ≡ writtenResult (outputOf answer) };

    fn from(answer: Result<usize, Refusal>) -> WrittenResult {
        match answer {
            Ok(length) => WrittenResult { refusal: 0, length },
            Err(refusal) => WrittenResult {
                refusal: u8::from(refusal),
                length: 0,
            },
        }
    }
}
