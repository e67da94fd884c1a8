// Standard input, read to its end: an error is no end.
ghost use Rattle.std.specs.Prelude.{◌≤◌};
ghost use Rattle.withhold.specs.Input.{Front, Filled};

use crate::call::{Again, PATIENCE, tells};
use std::io;
use std::io::Read;

// How many bytes one call reads at most.
const CHUNK: usize = 4096;

// One call, into the front of what is left of a buffer.
fn read_front<R: Read>(
    reader: &mut R,
    rest: &mut [u8],
    patience: usize,
) -> io::Result<Option<Again>>
    ensures { Front patience result rest.old rest.new }
{
    let mut chunk = [0u8; CHUNK];
    let size = rest.len().min(CHUNK);
    let told = tells(reader.read(&mut chunk[0..size]), patience)?;
    if let Some(again) = told {
        rest[0..again.count].copy_from_slice(&chunk[0..again.count]);
    }
    Ok(told)
}

// Reads until the input ends or the buffer is full, and gives how many bytes there are.
pub(crate) fn read_input<R: Read>(reader: &mut R, buffer: &mut [u8]) -> io::Result<usize>
    ensures { Filled result buffer.old buffer.new }
{
    let mut done = 0;
    let mut patience = PATIENCE;
    while done < buffer.len() {
        let Some(again) = read_front(reader, &mut buffer[done..], patience)? else {
            return Ok(done);
        };
        done += again.count;
        patience = again.patience;
    }
    Ok(done)
}
