// What a call of `read` or `write` tells.
ghost use Rattle.std.specs.Prelude.{◌≡◌};
ghost use Rattle.withhold.specs.Call.{toldOf};

use std::io;
use std::io::ErrorKind;

// How many calls of one loop a signal may interrupt. One more counts as failed: a loop has to end.
pub(crate) const PATIENCE: usize = 1000000;

// So many bytes are moved, and the call is made again for the rest. 0: a signal interrupted it, and patience is one less.
#[derive(Clone, Copy)]
pub(crate) struct Again {
    pub(crate) count: usize,
    pub(crate) patience: usize,
}

// From a call's answer, and the patience left. None: there was nothing to move.
pub(crate) fn tells(answer: io::Result<usize>, patience: usize) -> io::Result<Option<Again>>
    ensures { result ≡ toldOf answer patience }
{
    match answer {
        Ok(0) => Ok(None),
        Ok(count) => Ok(Some(Again { count, patience })),
        Err(error) => {
            if (error.kind() == ErrorKind::Interrupted) & (patience > 0) {
                return Ok(Some(Again {
                    count: 0,
                    patience: patience - 1,
                }));
            }
            Err(error)
        }
    }
}
