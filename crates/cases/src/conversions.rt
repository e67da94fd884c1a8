// Whether a trace comes back that is taken narrow and wide again.
use crate::case::{is_as_it_was, output_buffer};
use lexical::slice::from_indices;
use records::convert::{narrow_trace, widen_trace};
use std::alloc::Global;
use std::io;
use std::io::Write;

// Whether a narrow trace, taken wide, has the bytes that are told, to the last.
fn comes_back(alloc: Global, narrow: &[u8], wide: &[u8]) -> io::Result<bool> {
    let mut buffer = output_buffer(alloc, wide.len())?;
    Ok(match widen_trace(narrow, &mut buffer) {
        Ok(length) => (length == wide.len()) & (buffer.as_slice() == wide),
        Err(_) => false,
    })
}

// ` back` where a wide trace, taken narrow and wide again, has its bytes; ` refused NUMBER` where it is refused, and nothing written; else ` changed`.
pub fn show_back(alloc: Global, out: &mut impl Write, wide: &[u8]) -> io::Result<()> {
    let mut buffer = output_buffer(alloc, wide.len())?;
    match narrow_trace(wide, &mut buffer) {
        Ok(length) => {
            if comes_back(alloc, from_indices(&buffer, 0, length), wide)? {
                return write!(out, " back");
            }
        }
        Err(refusal) => {
            if is_as_it_was(&buffer) {
                return write!(out, " {refusal}");
            }
        }
    }
    write!(out, " changed")
}
