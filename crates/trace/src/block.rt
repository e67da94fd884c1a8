// The trace of a block scan.
ghost use Rattle.std.specs.Prelude.{◌≡◌, ◌≤◌, leb, is_some, length};
ghost use Rattle.rules.specs.Trace.{taken, endsEmpty, flowExit};
ghost use Rattle.rules.specs.Output.{outputOf};
ghost use Rattle.flow.specs.Answer.{kindNumber};
ghost use Rattle.trace.specs.Answer.{blockTraced, blockBuffer};

use crate::piece::{Piece, trace_last, trace_piece};
use flow::block::Block;
use flow::html_flow::Kind;
use flow::scan::block_scan;
use lexical::byte::is_line_ending_byte;
use lexical::line::next_line;
use records::event::Form;
use rules::crate_rules;
use rules::refusal::Refusal;

// Whether the last line taken has no bytes.
fn ends_empty(text: &[u8], start: usize, stop: usize) -> bool
    requires { (start ≤ stop) × (stop ≤ length text.now) }
    ensures { result ≡ endsEmpty (taken text.now start stop) }
{
    if start == stop {
        return true;
    }
    is_line_ending_byte(text[stop - 1])
}

// Whether blocks of a kind have a closer.
fn has_closer(kind: Kind) -> bool
    ensures { result ≡ leb (kindNumber kind) 5 }
{
    !matches!(kind, Kind::Basic | Kind::Complete)
}

// Where a block is left: at its stop, but an ending too far where no closer was met and the last line has no bytes (docs/DECISIONS.md, 1).
fn flow_exit(text: &[u8], start: usize, block: Block) -> usize
    requires { (start ≤ block.stop) × (block.stop ≤ length text.now) }
    ensures { result ≡ flowExit text.now start (kindNumber block.kind) block.stop (is_some block.closer) }
{
    let stop = block.stop;
    if has_closer(block.kind) && block.closer.is_none() && ends_empty(text, start, stop) {
        return next_line(text, stop);
    }
    stop
}

// The trace of a block scan, with all eight changes: the events are the Rust's.
pub fn block_trace(
    bulletin: &[u8],
    flags: &[u8],
    index: usize,
    out: &mut [u8],
) -> Result<usize, Refusal>
    ensures answer { outputOf result ≡ blockTraced bulletin.now flags.now index (length out.old) }
    ensures buffer { out.new ≡ blockBuffer bulletin.now flags.now index out.old }
{
    let Some(block) = block_scan(crate_rules(), bulletin, flags, index)? else {
        return trace_last(Form::Flow, index, 0, out);
    };
    let piece = Piece {
        form: Form::Flow,
        index,
        stop: block.stop,
        exit: flow_exit(bulletin, index, block),
        value: u8::from(block.kind),
    };
    trace_piece(bulletin, piece, out)
}
