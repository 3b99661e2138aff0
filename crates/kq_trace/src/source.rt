//! Where the bytes of a text come from.

ghost use Rattle.std.specs.Prelude.{◌≡◌, ◌≤◌, ◌<◌, IfErr, IfOk, Some, length, take};
ghost use Rattle.std.specs.Io.KnownBytes.{IsAtEnd};
ghost use Rattle.kq_trace.specs.Source.{Ahead, Gives};

use std::io::Read;

/// A text does not come whole: a read failed, an interrupted one too, or there are more bytes than there may be.
#[derive(Debug, Drop, Clone, Copy, PartialEq, Eq)]
pub struct ReadFault;

/// Gives the bytes of a text in order.
pub trait Source {
    // What it still has.
    ghost ahead: { Self → Ahead };

    // What is the case where a read fails.
    ghost may_fail: { Type 0 };

    /// Puts the bytes that come next at the front of the buffer: how many they are. None come only at the end, or where
    /// the buffer has no room. After a fault nothing is known of what it still has.
    fn read(&mut self, buffer: &mut [u8]) -> Result<usize, ReadFault>
        ensures given { IfOk result (λ count. Gives (ahead self.old) (ahead self.new) (take count buffer.new)) }
        ensures within { IfOk result (λ count. count ≤ length buffer.new) }
        ensures len { length buffer.new ≡ length buffer.old }
        ensures end { IfOk result (λ count. count ≡ 0 → 0 < length buffer.new → IsAtEnd (ahead self.new).known) }
        ensures fault { IfErr result (λ _. may_fail) };
}

/// Bytes that are lent, which are always there.
#[derive(Drop)]
pub struct Lent<'a> {
    rest: &'a [u8],
}

impl<'a> Lent<'a> {
    ghost use Rattle.kq_trace.specs.Source.{lent_ahead};

    /// All of these bytes.
    pub fn new(bytes: &'a [u8]) -> Self
        ensures { lent_ahead result ≡ record { known = Some bytes.now; most = length bytes.now } }
    {
        Lent { rest: bytes }
    }
}

impl<'a> Source for Lent<'a> {
    ghost use Rattle.kq_trace.specs.Source.{lent_ahead};

    ghost ahead = { lent_ahead };

    ghost may_fail = { ⊥ };

    fn read(&mut self, buffer: &mut [u8]) -> Result<usize, ReadFault> {
        let count = buffer.len().min(self.rest.len());
        buffer[..count].copy_from_slice(&self.rest[..count]);
        self.rest = &self.rest[count..];
        Ok(count)
    }
}

/// What a reader has, which may be no more bytes than so many.
#[derive(Drop)]
pub struct Input<'i, I> {
    reader: &'i mut I,
    /// How many more bytes may come.
    left: usize,
}

impl<'i, I: Read> Input<'i, I> {
    ghost use Rattle.kq_trace.specs.Source.{input_ahead};

    /// All that the reader still has, which may be `limit` bytes at most: one more is a [`ReadFault`].
    pub fn new(reader: &'i mut I, limit: usize) -> Self
        ensures { input_ahead I.remaining result ≡ record { known = I.remaining reader.old; most = limit } }
    {
        Input {
            reader,
            left: limit,
        }
    }
}

impl<'i, I: Read> Source for Input<'i, I> {
    ghost use Rattle.std.specs.Prelude.{⊤};
    ghost use Rattle.kq_trace.specs.Source.{input_ahead};

    ghost ahead = { input_ahead I.remaining };

    ghost may_fail = { ⊤ };

    fn read(&mut self, buffer: &mut [u8]) -> Result<usize, ReadFault> {
        let count = self.reader.read(buffer).map_err(|_| ReadFault)?;
        if self.left < count {
            return Err(ReadFault);
        }
        self.left -= count;
        Ok(count)
    }
}
