// Standard output, written to the last byte.
ghost use Rattle.std.specs.Prelude.{OnOk};
ghost use Rattle.std.specs.Io.KnownBytes.{Appends};
ghost use Rattle.withhold.specs.Output.{Sent};

use crate::call::{Again, PATIENCE, tells};
use std::io;
use std::io::{ErrorKind, Write};

// One call, of the bytes that are left.
fn write_front<W: Write>(writer: &mut W, rest: &[u8], patience: usize) -> io::Result<Option<Again>>
    ensures { Sent patience result rest.now (W.contents writer.old) (W.contents writer.new) }
{
    tells(writer.write(rest), patience)
}

// Writes the bytes, all of them where no call failed.
pub(crate) fn write_output<W: Write>(writer: &mut W, bytes: &[u8]) -> io::Result<()>
    ensures { OnOk result (Appends (W.contents writer.old) (W.contents writer.new) bytes.now) }
{
    let mut rest = bytes;
    let mut patience = PATIENCE;
    while !rest.is_empty() {
        let Some(again) = write_front(writer, rest, patience)? else {
            return Err(io::Error::from(ErrorKind::WriteZero));
        };
        rest = &rest[again.count..];
        patience = again.patience;
    }
    Ok(())
}
