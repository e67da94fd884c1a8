// The trace of an inline scan.
ghost use Rattle.std.specs.Prelude.{◌≡◌, length};
ghost use Rattle.rules.specs.Output.{outputOf};
ghost use Rattle.trace.specs.Answer.{inlineTraced, inlineBuffer};

use crate::piece::{Piece, trace_last, trace_piece};
use html::scan::inline_scan;
use records::event::Form;
use rules::crate_rules;
use rules::refusal::Refusal;

// The trace of an inline scan, with all eight changes: the events are the Rust's.
pub fn inline_trace(text: &[u8], index: usize, carry: u8, out: &mut [u8]) -> Result<usize, Refusal>
    ensures answer { outputOf result ≡ inlineTraced text.now index carry (length out.old) }
    ensures buffer { out.new ≡ inlineBuffer text.now index carry out.old }
{
    let found = inline_scan(crate_rules(), text, index, carry)?;
    let Some(stop) = found.stop else {
        return trace_last(Form::Text, index, found.carry, out);
    };
    let piece = Piece {
        form: Form::Text,
        index,
        stop,
        exit: stop,
        value: found.carry,
    };
    trace_piece(text, piece, out)
}
