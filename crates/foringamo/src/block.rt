// The block scan and its trace.
ghost use Rattle.std.specs.Prelude.{◌≡◌, length};
ghost use Rattle.rules.specs.Reading.{crate as ofCrate, standard};
ghost use Rattle.rules.specs.Scan.{blockScan};
ghost use Rattle.flow.specs.Answer.{blockAnswerOf};
ghost use Rattle.trace.specs.Answer.{blockTraced, blockBuffer};
ghost use Rattle.foringamo.specs.Result.{blockResult, writtenResult};

use crate::written::WrittenResult;
use flow::block::Block;
use flow::scan::block_scan;
use rules::refusal::Refusal;
use rules::{crate_rules, standard_rules};
use trace::block::block_trace;

// The place of what has no name.
const NO_NAME: u8 = 255;

// What a block scan gives.
#[repr(C)]
#[derive(Clone, Copy, Debug, PartialEq, Eq)]
pub struct BlockResult {
    // 0: not refused.
    pub refusal: u8,
    // 1 to 7. 0: no block.
    pub kind: u8,
    // 1: a closer was met.
    pub closed: u8,
    // The place of the name among those of kind 1 or 6. 255: there is none.
    pub name: u8,
    pub stop: usize,
    // The first byte of the closer, or the stop where none was met. 0: no block.
    pub closer: usize,
}

// No block.
const NO_BLOCK: BlockResult = BlockResult {
    refusal: 0,
    kind: 0,
    closed: 0,
    name: NO_NAME,
    stop: 0,
    closer: 0,
};

// The answer of a block scan, as the interface gives it.
impl From<Result<Option<Block>, Refusal>> for BlockResult {
    ghost from_gives = { λ answer given. given ≡ blockResult (blockAnswerOf answer) };

    fn from(answer: Result<Option<Block>, Refusal>) -> BlockResult {
        match answer {
            Ok(Some(block)) => BlockResult {
                refusal: 0,
                kind: u8::from(block.kind),
                closed: block.closer.is_some() as u8,
                name: block.name.unwrap_or(NO_NAME),
                stop: block.stop,
                closer: block.closer.unwrap_or(block.stop),
            },
            Ok(None) => NO_BLOCK,
            Err(refusal) => BlockResult {
                refusal: u8::from(refusal),
                ..NO_BLOCK
            },
        }
    }
}

// The block that the line at an index opens.
#[unsafe(no_mangle)]
pub extern "C" fn foringamo_block_scan(bulletin: &[u8], flags: &[u8], index: usize) -> BlockResult
    ensures { result ≡ blockResult (blockScan ofCrate bulletin.now flags.now index) }
{
    BlockResult::from(block_scan(crate_rules(), bulletin, flags, index))
}

// The block that the line at an index opens by the standard.
#[unsafe(no_mangle)]
pub extern "C" fn foringamo_standard_block_scan(
    bulletin: &[u8],
    flags: &[u8],
    index: usize,
) -> BlockResult
    ensures { result ≡ blockResult (blockScan standard bulletin.now flags.now index) }
{
    BlockResult::from(block_scan(standard_rules(), bulletin, flags, index))
}

// The trace of a block scan.
#[unsafe(no_mangle)]
pub extern "C" fn foringamo_block_trace(
    bulletin: &[u8],
    flags: &[u8],
    index: usize,
    out: &mut [u8],
) -> WrittenResult
    ensures answer { result ≡ writtenResult (blockTraced bulletin.now flags.now index (length out.old)) }
    ensures buffer { out.new ≡ blockBuffer bulletin.now flags.now index out.old }
{
    WrittenResult::from(block_trace(bulletin, flags, index, out))
}
