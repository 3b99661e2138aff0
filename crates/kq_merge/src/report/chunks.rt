//! The text of a report in chunks, so that none of it is moved as it grows.
ghost use Rattle.std.specs.Prelude.{◌≡◌, ◌++◌, [], IfOk, OnErr, OnOk, length};
ghost use Rattle.std.specs.Io.KnownBytes.{Appends};
ghost use Rattle.kq_text.specs.Output.{AppendsPart};
ghost use Rattle.kq_merge.specs.Chunks.{text_in};

use kq_model::Memory;
use kq_text::{WriteFailed, write_out};
use std::alloc::Global;
use std::io::Write;
use std::marker::Model;

/// A text in chunks, one behind the other. Contracts see the whole.
#[derive(Drop)]
pub struct TextChunks {
    chunks: Vec<Vec<u8>>,
    /// How many bytes they are.
    bytes: usize,
}

impl Model for TextChunks {
    ghost use Rattle.std.specs.Prelude.{◌≡◌, List, ℕ, length};
    ghost use Rattle.kq_merge.specs.Chunks.{text_in};

    ghost Value = { List ℕ };

    ghost view = { λ t. text_in t.chunks.items };

    ghost invariant = { λ t. t.bytes ≡ length (text_in t.chunks.items) };
}

impl TextChunks {
    /// No text.
    pub(crate) fn new(alloc: Global) -> Self
        ensures { result ≡ [] }
    {
        TextChunks {
            chunks: Vec::new(alloc),
            bytes: 0,
        }
    }

    /// What its memory is from.
    pub(crate) fn allocator(&self) -> Global {
        *self.chunks.allocator()
    }

    /// How many bytes the text has.
    pub fn len(&self) -> usize
        ensures { result ≡ length self.now }
    {
        self.bytes
    }

    /// A chunk more. After Memory, which is also the answer where the text would be longer than memory can be, it is as
    /// it was.
    pub(crate) fn push(&mut self, chunk: Vec<u8>) -> Result<(), Memory>
        ensures pushed { OnOk result (self.new ≡ self.old ++ chunk.items) }
        ensures memory { OnErr result (self.new ≡ self.old) }
    {
        let bytes = self.bytes.checked_add(chunk.len()).ok_or(Memory)?;
        self.chunks.push(chunk)?;
        self.bytes = bytes;
        Ok(())
    }

    /// The chunks, in their order.
    pub fn as_slice(&self) -> &[Vec<u8>]
        ensures { text_in result.now ≡ self.now }
    {
        self.chunks.as_slice()
    }

    /// Writes the whole text, chunk by chunk. Where a write fails, a prefix of it was written.
    pub fn write_out<W: Write>(&self, out: &mut W) -> Result<(), WriteFailed>
        ensures whole { OnOk result (Appends (W.contents out.old) (W.contents out.new) self.now) }
        ensures part { OnErr result (AppendsPart (W.contents out.old) (W.contents out.new) self.now) }
    {
        for chunk in self.as_slice() {
            write_out(chunk.as_slice(), out)?;
        }
        Ok(())
    }

    /// The whole text in one piece. Memory: there is no room for it beside the chunks.
    pub fn joined(self) -> Result<Vec<u8>, Memory>
        ensures { IfOk result (λ text. text.items ≡ self) }
    {
        let mut text = Vec::with_capacity(*self.chunks.allocator(), self.bytes)?;
        for chunk in self.chunks {
            text.extend_from_slice(chunk.as_slice())?;
        }
        Ok(text)
    }
}
