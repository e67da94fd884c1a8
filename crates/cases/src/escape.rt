// Cases in text: fields behind a space each, numbers in decimal digits, and a text in which `\n`, `\r`, `\t` and `\\` are LF, CR, tab and backslash.
ghost use Rattle.std.specs.Prelude.{◌≡◌, ◌≤◌, length, IfOk};

use crate::hex::{byte_at, digit};
use std::alloc::{AllocError, Global};

// What stands before the first space of a line, and what behind it.
pub fn cut(line: &[u8]) -> (&[u8], &[u8]) {
    match line.iter().position(|b| *b == b' ') {
        Some(space) => (&line[..space], &line[space + 1..]),
        None => (line, &[]),
    }
}

// The number of decimal digits, or 0.
pub fn decimal(digits: &[u8]) -> usize {
    let Ok(text) = str::from_utf8(digits) else {
        return 0;
    };
    text.parse().unwrap_or(0)
}

// The flags, one digit each.
pub fn flags(alloc: Global, digits: &[u8]) -> Result<Vec<u8>, AllocError>
    ensures { IfOk result (λ flags. length flags.items ≡ length digits.now) }
{
    digits.iter().map(|b| digit(*b)).collect(alloc)
}

// What a backslash and the letter behind it mean: a backslash but for three letters.
fn meant(letter: u8) -> u8 {
    match letter {
        b'n' => b'\n',
        b'r' => b'\r',
        b't' => b'\t',
        _ => b'\\',
    }
}

// The text of a case.
pub fn unescape(alloc: Global, escaped: &[u8]) -> Result<Vec<u8>, AllocError>
    ensures { IfOk result (λ text. length text.items ≤ length escaped.now) }
{
    let mut text = Vec::new(alloc);
    let mut rest = escaped;
    while let Some((first, behind)) = rest.split_first() {
        rest = behind;
        if *first == b'\\' {
            text.push(meant(byte_at(rest, 0)))?;
            rest = rest.get(1..).unwrap_or(&[]);
        } else {
            text.push(*first)?;
        }
    }
    Ok(text)
}
