//! Reads lines one after the other.
ghost use Rattle.std.specs.Prelude.{◌≡◌, ◌<◌, ◌≤◌, ◌+◌, ◌++◌, [], length, take, true};
ghost use Rattle.std.specs.Prelude.{false, IfErr, IfOk, MatchResult, OnErr, OnOk};
ghost use Rattle.std.specs.Io.KnownBytes.{IsAtEnd, Keeps, prepend_known};
ghost use Rattle.kq_model.specs.Limits.{most_line_bytes};
ghost use Rattle.kq_input.specs.Unread.{HasMore, IsLastLine, IsNextLine, TookLine, TookPart, most_read_bytes};

use crate::arrived::Arrived;
use kq_model::Memory;
use kq_model::limits::MOST_LINE_BYTES;
use memchr::memchr;
use std::alloc::Global;
use std::io::Read;
use std::marker::Model;

/// Bytes that are kept of a line: one more than a line may have, so that a longer line is known by them.
pub const MOST_KEPT_BYTES: usize = MOST_LINE_BYTES + 1;

/// Why no line was read.
#[derive(Debug, Drop, Clone, Copy, PartialEq, Eq)]
pub enum LinesError {
    /// A read failed, an interrupted one too.
    Read,
    /// A growth was refused.
    Memory,
}

/// Reads the lines of an input one after the other. However long a line is, no more is held than [`MOST_KEPT_BYTES`] of
/// it and the bytes of one read.
#[derive(Drop)]
pub struct Lines {
    arrived: Arrived,
    line: Vec<u8>,
}

impl Model for Lines {
    ghost use Rattle.std.specs.Prelude.{◌≤◌, ◌+◌, length};
    ghost use Rattle.kq_model.specs.Limits.{most_line_bytes};
    ghost use Rattle.kq_input.specs.Unread.{LinesState, most_read_bytes};

    ghost Value = { LinesState };

    ghost view = { λ l. record { line = l.line.items; waiting = l.arrived } };

    ghost invariant = { λ l. (length l.line.items ≤ most_line_bytes + 1) × (length l.arrived ≤ most_read_bytes) };
}

impl Lines {
    /// A reader that has read nothing. All its room is taken at once.
    pub fn new(alloc: Global) -> Result<Self, Memory>
        ensures { IfOk result (λ lines. lines ≡ record { line = []; waiting = [] }) }
    {
        Ok(Lines {
            arrived: Arrived::new(alloc)?,
            line: Vec::with_capacity(alloc, MOST_KEPT_BYTES)?,
        })
    }

    /// What was kept of the line that was read last, without its line feed.
    pub fn line(&self) -> &[u8]
        ensures kept { result.now ≡ self.now.line }
        ensures within { length result.now ≤ most_line_bytes + 1 }
    {
        self.line.as_slice()
    }

    /// Reads the next line, and says whether there was one. It asks the input for no byte behind the line before that
    /// is whole, so an input that comes bit by bit, as a pipe's, is answered line by line.
    ///
    /// An input is read by one reader, from its first line to its last. A line of 2^64 reads is [`LinesError::Read`].
    /// After an error the bytes that were taken of the line are gone; where a read failed, no others were taken.
    pub fn next<I: Read>(&mut self, input: &mut I) -> Result<bool, LinesError>
        ensures line { IfOk result (λ some. some ≡ true → IsNextLine (most_line_bytes + 1)
            (prepend_known self.old.waiting (I.remaining input.old))
            (prepend_known self.new.waiting (I.remaining input.new)) self.new.line) }
        ensures none { IfOk result (λ some. some ≡ false → self.new.line ≡ []) }
        ensures last { IfOk result (λ some. some ≡ false → IsLastLine
            (prepend_known self.old.waiting (I.remaining input.old))
            (prepend_known self.new.waiting (I.remaining input.new))) }
        ensures taken { IfOk result (λ some. some ≡ true → TookLine (most_line_bytes + 1)
            (prepend_known self.old.waiting (I.remaining input.old))
            (prepend_known self.new.waiting (I.remaining input.new)) self.new.line) }
        ensures kept { IfOk result (λ some. some ≡ false → Keeps
            (prepend_known self.old.waiting (I.remaining input.old))
            (prepend_known self.new.waiting (I.remaining input.new))) }
        ensures part { OnErr result (TookPart (most_line_bytes + 1)
            (prepend_known self.old.waiting (I.remaining input.old))
            (prepend_known self.new.waiting (I.remaining input.new)) self.new.line) }
        ensures read { IfErr result (λ error. error ≡ LinesError.Read → self.new.waiting ≡ []) }
        ensures few { MatchResult result (λ _. length self.new.waiting < most_read_bytes)
            (λ _. length self.new.waiting ≤ most_read_bytes) }
    {
        self.line.clear();
        let mut some = false;
        'pieces: for _turn in 0..u64::MAX {
            if !self.arrive(input)? {
                return Ok(some);
            }
            some = true;
            if self.add()? {
                return Ok(true);
            }
        }
        Err(LinesError::Read)
    }

    /// Reads where no bytes wait; whether some do then.
    fn arrive<I: Read>(&mut self, input: &mut I) -> Result<bool, LinesError>
        ensures kept { Keeps (prepend_known self.old.waiting (I.remaining input.old))
            (prepend_known self.new.waiting (I.remaining input.new)) }
        ensures line { self.new.line ≡ self.old.line }
        ensures some { IfOk result (λ some. some ≡ true → 0 < length self.new.waiting) }
        ensures none { IfOk result (λ some. some ≡ false
            → (self.new.waiting ≡ []) × IsAtEnd (prepend_known self.new.waiting (I.remaining input.new))) }
        ensures failed { IfErr result (λ error. (error ≡ LinesError.Read) × (self.new.waiting ≡ [])) }
        ensures few { length self.new.waiting ≤ most_read_bytes }
    {
        if self.arrived.is_empty() {
            self.arrived.refill(input).map_err(|_| LinesError::Read)?;
        }
        Ok(!self.arrived.is_empty())
    }

    /// Puts what came behind the line, up to its line feed; whether that was among it.
    fn add(&mut self) -> Result<bool, LinesError>
        ensures more { IfOk result (HasMore (most_line_bytes + 1) self.old self.new) }
        ensures memory { IfErr result (λ error. (error ≡ LinesError.Memory) × (self.new ≡ self.old)) }
    {
        let came = self.arrived.as_slice();
        match memchr(b'\n', came) {
            Some(end) => {
                put(&mut self.line, &came[..end])?;
                self.arrived.skip(end + 1);
                Ok(true)
            }
            None => {
                let all = came.len();
                put(&mut self.line, came)?;
                self.arrived.skip(all);
                Ok(false)
            }
        }
    }
}

/// Puts bytes behind a line, as many as are kept of it.
fn put(line: &mut Vec<u8>, piece: &[u8]) -> Result<(), LinesError>
    requires { length line.old.items ≤ most_line_bytes + 1 }
    ensures within { length line.new.items ≤ most_line_bytes + 1 }
    ensures put { OnOk result (line.new.items ≡ take (most_line_bytes + 1) (line.old.items ++ piece.now)) }
    ensures memory { IfErr result (λ error. (error ≡ LinesError.Memory) × (line.new.items ≡ line.old.items)) }
{
    let room = MOST_KEPT_BYTES - line.len();
    line.extend_from_slice(&piece[..piece.len().min(room)])
        .map_err(|_| LinesError::Memory)
}
