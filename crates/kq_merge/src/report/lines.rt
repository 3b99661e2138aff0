//! Lines that are written one behind the other over bytes that are there.
ghost use Rattle.std.specs.Prelude.{◌≡◌, ◌<◌, ◌≤◌, ◌+◌, ◌^◌, [], IfOk, OnOk, length};
ghost use Rattle.kq_model.specs.Report.{reply_line};
ghost use Rattle.kq_text.specs.Adds.{Adds};
ghost use Rattle.kq_merge.specs.Bounds.{line_bound};

use super::bound::line_bound;
use super::chunks::TextChunks;
use super::line::write_reply_at;
use kq_model::{Memory, Reply};
use std::alloc::Global;
use std::marker::Model;
use std::mem::replace;

/// A chunk has so many bytes at least: few enough to stay in a processor's cache while lines are written over them.
const CHUNK_BYTES: usize = 122_880;

/// The lines of a report so far. Contracts see their text.
#[derive(Drop)]
pub struct Lines {
    /// The text before the last chunk.
    full: TextChunks,
    /// The last chunk: text, and behind it bytes over which the next lines are written.
    bytes: Vec<u8>,
    /// Where its text ends.
    end: usize,
}

impl Model for Lines {
    ghost use Rattle.std.specs.Prelude.{◌≤◌, ◌<◌, ◌+◌, ◌^◌, ◌++◌, List, ℕ, length, take};

    ghost Value = { List ℕ };

    ghost view = { λ l. l.full ++ take l.end l.bytes.items };

    ghost invariant = { λ l. (l.end ≤ length l.bytes.items) × (length l.full + length l.bytes.items < 2 ^ 64) };
}

impl Lines {
    /// No line yet.
    pub fn new(alloc: Global) -> Self
        ensures { result ≡ [] }
    {
        Lines {
            full: TextChunks::new(alloc),
            bytes: Vec::new(alloc),
            end: 0,
        }
    }

    /// Adds the line of the reply to the record at a place; of a record that was only done, nothing.
    pub fn put(&mut self, at: u64, reply: &Reply) -> Result<(), Memory>
        ensures added { OnOk result (Adds self.old (reply_line at reply.now) self.new) }
        ensures fits { OnOk result (length self.new < 2 ^ 64) }
    {
        let bytes = usize::try_from(line_bound(reply)).map_err(|_| Memory)?;
        if self.bytes.len() - self.end < bytes {
            let alloc = *self.bytes.allocator();
            self.bytes.truncate(self.end);
            self.end = 0;
            self.full.push(replace(&mut self.bytes, Vec::new(alloc)))?;
            self.bytes = chunk_behind(alloc, &self.full, bytes)?;
        }
        self.end = write_reply_at(self.bytes.as_mut_slice(), self.end, at, reply);
        Ok(())
    }

    /// The text.
    pub fn into_text(mut self) -> Result<TextChunks, Memory>
        ensures { IfOk result (λ text. text ≡ self) }
    {
        self.bytes.truncate(self.end);
        let Lines {
            mut full,
            bytes,
            ..
        } = self;
        full.push(bytes)?;
        Ok(full)
    }
}

/// A chunk of so many bytes at least, behind a text. Memory is also the answer where both would be longer than memory
/// can be.
#[inline(never)]
fn chunk_behind(alloc: Global, text: &TextChunks, least: usize) -> Result<Vec<u8>, Memory>
    ensures room { IfOk result (λ chunk. least ≤ length chunk.items) }
    ensures fits { IfOk result (λ chunk. length text.now + length chunk.items < 2 ^ 64) }
{
    let bytes = least.max(CHUNK_BYTES);
    let Some(_) = text.len().checked_add(bytes) else {
        return Err(Memory);
    };
    Ok(vec![in alloc; b' '; bytes]?)
}
