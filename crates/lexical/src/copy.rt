// Copying bytes into a lent buffer.
ghost use Rattle.std.specs.Prelude.{◌+◌, ◌-◌, ◌≤◌, length, take, drop};
ghost use Rattle.lexical.specs.Buffer.{Written};

use crate::slice::from_indices;

// Copies all bytes of a part to a place with room for them. It is a loop and no `copy_from_slice`, which calls memmove: the archive for C needs no name from outside.
fn copy(part: &[u8], out: &mut [u8], at: usize)
    requires { at + length part.now ≤ length out.old }
    ensures { Written out.old at part.now out.new }
{
    for i in 0..part.len() {
        out[at + i] = part[i];
    }
}

// Copies the bytes between two indices to a place of a buffer, as far as there are any and the buffer has room.
pub fn copy_part(bytes: &[u8], start: usize, end: usize, out: &mut [u8], at: usize)
    ensures { Written out.old at (take (length out.old - at) (take (end - start) (drop start bytes.now))) out.new }
{
    if at < out.len() {
        let room = out.len() - at;
        let part = from_indices(from_indices(bytes, start, end), 0, room);
        copy(part, out, at);
    }
}
