// A case in one of the forms that run.rt lists.
ghost use Rattle.std.specs.Prelude.{◌≡◌, IfOk, replicate};

use crate::escape::{cut, decimal, flags, unescape};
use crate::hex::{byte_at, decode, three_bytes};
use lexical::slice::from_indices;
use std::alloc::{AllocError, Global};

// In hexadecimal, where the count of flags stands and the room, and where the flags begin.
const COUNT_AT: usize = 3;

const ROOM_AT: usize = 4;

const FLAGS_AT: usize = 7;

// In a text of one byte again and again, where the byte stands, behind the length.
const BYTE_AT: usize = 3;

// What an output buffer holds before.
const FILL: u8 = 0xee;

// An output buffer of a room.
pub fn output_buffer(alloc: Global, room: usize) -> Result<Vec<u8>, AllocError>
    ensures { IfOk result (λ buffer. buffer.items ≡ replicate room FILL) }
{
    vec![in alloc; FILL; room]
}

// Whether a part of an output buffer is as it was.
pub fn is_as_it_was(part: &[u8]) -> bool {
    part.iter().all(|byte| *byte == FILL)
}

// What a case asks about: a text, its flags, an index, and the room of an output buffer.
#[derive(Drop)]
pub struct Case {
    pub text: Vec<u8>,
    pub flags: Vec<u8>,
    pub index: usize,
    pub room: usize,
}

impl Case {
    // The case of a letter, from what is behind it.
    pub fn new(alloc: Global, letter: u8, asked: &[u8]) -> Result<Case, AllocError> {
        let (_, fields) = cut(asked);
        match letter {
            b'n' => Case::as_it_stands(alloc, fields),
            b'w' | b'W' | b'g' | b'u' | b'U' | b'o' => Case::with_room(alloc, fields),
            b'I' | b'B' | b'e' | b'x' | b'X' | b's' | b'l' => Case::in_hexadecimal(alloc, asked),
            b'S' | b'L' => Case::of_one_byte(alloc, asked),
            _ => Case::in_digits(alloc, fields),
        }
    }

    // A text.
    fn as_it_stands(alloc: Global, text: &[u8]) -> Result<Case, AllocError>
        ensures { IfOk result (λ case. case.text.items ≡ text.now) }
    {
        Ok(Case {
            text: Vec::from_slice(alloc, text)?,
            flags: Vec::new(alloc),
            index: 0,
            room: 0,
        })
    }

    // `INDEX FLAGS TEXT`.
    fn in_digits(alloc: Global, fields: &[u8]) -> Result<Case, AllocError> {
        let (index, rest) = cut(fields);
        let (digits, text) = cut(rest);
        Ok(Case {
            text: unescape(alloc, text)?,
            flags: flags(alloc, digits)?,
            index: decimal(index),
            room: 0,
        })
    }

    // `ROOM LENGTH FLAGS TEXT`, the text again and again up to the length.
    fn with_room(alloc: Global, fields: &[u8]) -> Result<Case, AllocError> {
        let (room, rest) = cut(fields);
        let (length, rest) = cut(rest);
        let (digits, text) = cut(rest);
        let piece = unescape(alloc, text)?;
        let bytes = piece.iter().copied().cycle().take(decimal(length));
        Ok(Case {
            text: bytes.collect(alloc)?,
            flags: flags(alloc, digits)?,
            index: 0,
            room: decimal(room),
        })
    }

    // In hexadecimal.
    fn in_hexadecimal(alloc: Global, digits: &[u8]) -> Result<Case, AllocError> {
        let bytes = decode(alloc, digits)?;
        let text_at = FLAGS_AT + byte_at(&bytes, COUNT_AT) as usize;
        Ok(Case {
            text: Vec::from_slice(alloc, from_indices(&bytes, text_at, bytes.len()))?,
            flags: Vec::from_slice(alloc, from_indices(&bytes, FLAGS_AT, text_at))?,
            index: three_bytes(&bytes),
            room: three_bytes(from_indices(&bytes, ROOM_AT, FLAGS_AT)),
        })
    }

    // The same, where the text is a length and a byte, which comes again and again.
    fn of_one_byte(alloc: Global, digits: &[u8]) -> Result<Case, AllocError> {
        let mut case = Case::in_hexadecimal(alloc, digits)?;
        let byte = byte_at(&case.text, BYTE_AT);
        case.text = vec![in alloc; byte; three_bytes(&case.text)]?;
        Ok(case)
    }

    // The first flag, or 0: the carry of an inline scan, and the number of a kind.
    pub fn digit(&self) -> u8 {
        byte_at(&self.flags, 0)
    }

    // An output buffer of the room.
    pub fn buffer(&self, alloc: Global) -> Result<Vec<u8>, AllocError>
        ensures { IfOk result (λ buffer. buffer.items ≡ replicate self.now.room FILL) }
    {
        output_buffer(alloc, self.room)
    }
}
