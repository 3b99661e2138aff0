//! The text of a trace as it comes, in blocks of whole lines.

ghost use Rattle.std.specs.Prelude.{◌≡◌, [], IfErr, IfOk, OnOk};
ghost use Rattle.kq_trace.specs.Blocks.{ArePut, EndsWith, HasNothing, HasRead, IsDrained, IsNextBlock, IsNoLine};
ghost use Rattle.kq_trace.specs.ReadFaults.{IsReadFault};

use crate::chunk::Chunk;
use crate::input_error::InputError;
use crate::source::Source;
use kq_model::Memory;
use memchr::memchr;
use std::alloc::Global;

/// So many bytes are enough for a block that one thread decodes: they, their records and what these touch stay in its
/// cache.
const LONE_BLOCK_BYTES: usize = 8_192;

/// A block has so many bytes at least, but for the last one, where it is worth threads.
const LEAST_BLOCK_BYTES: usize = 262_144;

/// However many bytes came, so many are enough for a block: more would only stand in memory for longer.
const ENOUGH_BLOCK_BYTES: usize = 1_048_576;

/// A block has this part of the bytes that came before it, so that not much is left to be told of behind the last one.
const BLOCK_PART: usize = 8;

/// Blocks of a text whose bytes come from a source, in order: each is whole lines, but for the last.
#[derive(Drop)]
pub struct Blocks {
    pub(crate) chunk: Chunk,
    /// What came behind the last block.
    pub(crate) tail: Vec<u8>,
    /// How many bytes came.
    taken: usize,
    /// Whether one thread alone decodes them.
    lone: bool,
    /// Whether all came.
    pub(crate) ended: bool,
}

impl Blocks {
    /// Of a source that gave nothing yet, for so many threads.
    pub fn new(alloc: Global, threads: u32) -> Result<Self, Memory>
        ensures { IfOk result HasNothing }
    {
        Ok(Blocks {
            chunk: Chunk::new(alloc)?,
            tail: Vec::new(alloc),
            taken: 0,
            lone: threads < 2,
            ended: false,
        })
    }

    /// Puts the bytes that come next into the chunk: how many they are, and none only at the end.
    fn read_on<S: Source>(&mut self, source: &mut S) -> Result<usize, InputError>
        ensures read { IfOk result (HasRead (S.ahead source.old) (S.ahead source.new) self.old self.new) }
        ensures fault { IfErr result (IsReadFault S.may_fail) }
    {
        let count = self.chunk.read(source)?;
        self.taken = self.taken.saturating_add(count);
        self.ended = count == 0;
        Ok(count)
    }

    /// How many bytes the next block has at least.
    fn least(&self) -> usize {
        if self.lone {
            return LONE_BLOCK_BYTES;
        }
        (self.taken / BLOCK_PART).clamp(LEAST_BLOCK_BYTES, ENOUGH_BLOCK_BYTES)
    }

    /// The next block, in place of what stood there; behind the last one it is empty. After an error nothing is known.
    pub fn next<S: Source>(&mut self, source: &mut S, block: &mut Vec<u8>) -> Result<(), InputError>
        requires { EndsWith self.old (S.ahead source.old) }
        ensures block { OnOk result
            (IsNextBlock (S.ahead source.old) (S.ahead source.new) self.old self.new block.new.items) }
        ensures ends { OnOk result (EndsWith self.new (S.ahead source.new)) }
        ensures fault { IfErr result (IsNoLine S.may_fail) }
    {
        block.clear();
        block.append(&mut self.tail).map_err(|_| Memory)?;
        let least = self.least();
        'chunks: while !self.ended {
            let count = self.read_on(source)?;
            if put(self.chunk.first(count), least, block, &mut self.tail)? {
                return Ok(());
            }
        }
        Ok(())
    }

    /// Reads what is left, of which no block is made.
    pub fn drain<S: Source>(&mut self, source: &mut S) -> Result<(), InputError>
        requires { EndsWith self.old (S.ahead source.old) }
        ensures drained { OnOk result (IsDrained (S.ahead source.old) (S.ahead source.new) self.old self.new) }
        ensures fault { IfErr result (IsNoLine S.may_fail) }
    {
        'chunks: while !self.ended {
            let _ = self.read_on(source)?;
        }
        self.tail.clear();
        Ok(())
    }
}

/// Puts bytes that came behind a block; where it has so many already, only up to the end of a line among them, and
/// those behind that wait. Whether they end it.
fn put(
    came: &[u8],
    least: usize,
    block: &mut Vec<u8>,
    waiting: &mut Vec<u8>,
) -> Result<bool, Memory>
    requires { waiting.old.items ≡ [] }
    ensures { IfOk result (ArePut came.now block.old.items block.new.items waiting.new.items) }
{
    if block.len() >= least
        && let Some(end) = memchr(b'\n', came)
    {
        block.extend_from_slice(&came[..end + 1])?;
        waiting.extend_from_slice(&came[end + 1..])?;
        return Ok(true);
    }
    block.extend_from_slice(came)?;
    Ok(false)
}
