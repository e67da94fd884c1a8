// Cases in hexadecimal: two digits for each byte, and numbers of three bytes, high byte first.
ghost use Rattle.std.specs.Prelude.{◌≡◌, ◌+◌, ◌*◌, ◌/◌, ◌^◌, ◌<◌, length, slice_index, IfOk};

use std::alloc::{AllocError, Global};

// How many values a digit has, and how many digits a byte.
const BASE: u8 = 16;

const DIGITS: usize = 2;

// The byte at an index, or 0.
pub fn byte_at(bytes: &[u8], index: usize) -> u8
    ensures { result ≡ slice_index bytes.now index }
{
    bytes.get(index).copied().unwrap_or(0)
}

// The number in the three bytes at the front.
pub fn three_bytes(bytes: &[u8]) -> usize
    ensures { result ≡ slice_index bytes.now 0 * 2 ^ 16 + slice_index bytes.now 1 * 2 ^ 8 + slice_index bytes.now 2 }
{
    u32::from_be_bytes([0, byte_at(bytes, 0), byte_at(bytes, 1), byte_at(bytes, 2)]) as usize
}

// The value of a digit, or 0.
pub fn digit(b: u8) -> u8
    ensures { result < BASE }
{
    match b {
        b'0'..=b'9' => b - b'0',
        b'a'..=b'f' => b - b'a' + 10,
        _ => 0,
    }
}

// The bytes that two digits each stand for.
pub fn decode(alloc: Global, digits: &[u8]) -> Result<Vec<u8>, AllocError>
    ensures { IfOk result (λ bytes. length bytes.items ≡ length digits.now / 2) }
{
    digits
        .chunks_exact(DIGITS)
        .map(|pair| digit(byte_at(pair, 0)) * BASE + digit(byte_at(pair, 1)))
        .collect(alloc)
}
