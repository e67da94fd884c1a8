// Lines of a text. LF, CR LF and CR end a line; there is one line more than there are line endings.
ghost use Rattle.std.specs.Prelude.{◌≡◌, ◌+◌, not, drop, ◌==◌};
ghost use Rattle.lexical.specs.Text.{run};
ghost use Rattle.lexical.specs.Byte.{isSpaceOrTab};
ghost use Rattle.lexical.specs.Line.{lineEnding, endsLine, lines, isLineStart, isInner, lineLength, isBlank};
ghost use Rattle.lexical.specs.Name.{all};

use crate::byte::{class_end, is_line_ending_byte, is_space_or_tab, peek};

// How many bytes of a line ending stand at an index.
pub fn line_ending(bytes: &[u8], index: usize) -> usize
    ensures { result ≡ lineEnding (drop index bytes.now) }
{
    match peek(bytes, index) {
        Some(b'\n') => 1,
        Some(b'\r') => {
            if peek(bytes, index + 1) == Some(b'\n') {
                2
            } else {
                1
            }
        }
        _ => 0,
    }
}

// Past the line ending at an index. Where none stands: the index.
pub fn next_line(bytes: &[u8], index: usize) -> usize
    ensures { result ≡ index + lineEnding (drop index bytes.now) }
{
    if index < bytes.len() {
        return index + line_ending(bytes, index);
    }
    index
}

// Whether the byte at an index ends a line.
pub fn ends_line(bytes: &[u8], index: usize) -> bool
    ensures { result ≡ endsLine (drop index bytes.now) }
{
    match peek(bytes, index) {
        Some(b'\n') => true,
        Some(b'\r') => peek(bytes, index + 1) != Some(b'\n'),
        _ => false,
    }
}

// The number of lines.
pub fn count_lines(bytes: &[u8]) -> usize
    ensures { result ≡ lines bytes.now }
{
    let mut count = 1;
    let mut i = line_end(bytes, 0);
    while i < bytes.len() {
        let index = i;
        i = line_end(bytes, index + 1);
        if ends_line(bytes, index) {
            count += 1;
        }
    }
    count
}

// Whether an index is a line's first byte.
pub fn is_line_start(bytes: &[u8], index: usize) -> bool
    ensures { result ≡ isLineStart bytes.now index }
{
    if index == 0 {
        return true;
    }
    ends_line(bytes, index - 1)
}

// Whether a byte is neither a mark nor of a line ending.
fn is_inner(b: u8, mark: u8) -> bool
    ensures { result ≡ isInner mark b }
{
    !((b == mark) | is_line_ending_byte(b))
}

// Whether no byte is the mark: one test for all of them, without a branch.
fn are_other(part: &[u8], mark: u8) -> bool
    ensures { result ≡ all (λ b. not (b == mark)) part.now }
{
    part.iter().fold(true, |other, b| other & (*b != mark))
}

// Whether all bytes are neither a mark nor of a line ending.
fn are_inner(part: &[u8], mark: u8) -> bool
    ensures { result ≡ all (isInner mark) part.now }
{
    are_other(part, mark) & (are_other(part, b'\n') & are_other(part, b'\r'))
}

// Past the bytes at an index that are, eight by eight.
fn skip_eights(bytes: &[u8], index: usize, mark: u8) -> usize
    ensures { result + run (isInner mark) (drop result bytes.now) ≡ index + run (isInner mark) (drop index bytes.now) }
{
    let mut i = index;
    while 8 <= bytes.len().saturating_sub(i) && are_inner(&bytes[i..i + 8], mark) {
        i += 8;
    }
    i
}

// The first mark of the line from an index on, or where its content ends: before its ending, or at the end of the text.
pub fn mark_or_line_end(bytes: &[u8], index: usize, mark: u8) -> usize
    ensures { result ≡ index + run (isInner mark) (drop index bytes.now) }
{
    let i = skip_eights(bytes, index, mark);
    class_end(bytes, i, |b| is_inner(b, mark))
}

// Where the content of the line ends.
pub fn line_end(bytes: &[u8], index: usize) -> usize
    ensures { result ≡ index + lineLength (drop index bytes.now) }
{
    mark_or_line_end(bytes, index, b'\n')
}

// Past the spaces and tabs at an index.
pub fn space_or_tab_end(bytes: &[u8], index: usize) -> usize
    ensures { result ≡ index + run isSpaceOrTab (drop index bytes.now) }
{
    class_end(bytes, index, is_space_or_tab)
}

// Whether the rest of the line, from an index on, is blank.
pub fn is_blank(bytes: &[u8], index: usize) -> bool
    ensures { result ≡ isBlank (drop index bytes.now) }
{
    let end = space_or_tab_end(bytes, index);
    bytes.get(end).is_none_or(|b| is_line_ending_byte(*b))
}
