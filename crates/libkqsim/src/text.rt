//! A text that grows at its end and is read from its front.
ghost use Rattle.std.specs.Prelude.{◌≡◌, ◌≤◌, ◌+◌, ◌++◌, [], length, OnOk};
ghost use Rattle.kq_merge.specs.Bounds.{line_bound};
ghost use Rattle.kq_model.specs.Report.{reply_line};
ghost use Rattle.kq_text.specs.Writes.{Writes};
ghost use Rattle.libkqsim.specs.Logs.{IsNext};

use kq_merge::write_reply_at;
use kq_model::{Memory, Reply};
use std::alloc::Global;
use std::marker::Model;

/// Bytes that were put and not read yet. Contracts see them, and how many more can be put without memory.
#[derive(Drop)]
pub(crate) struct Text {
    bytes: Vec<u8>,
    /// Up to here it was read.
    start: usize,
    /// Behind it stand bytes over which more is written.
    end: usize,
}

impl Model for Text {
    ghost use Rattle.std.specs.Prelude.{◌≤◌, ◌-◌, length, take, drop};
    ghost use Rattle.libkqsim.specs.Logs.{Growing};

    ghost Value = { Growing };

    ghost view = { λ t. record {
      text = drop t.start (take t.end t.bytes.items);
      room = length t.bytes.items - t.end;
    } };

    ghost invariant = { λ t. (t.start ≤ t.end) × (t.end ≤ length t.bytes.items) };
}

/// Writes bytes over others, from a place on. Where they end is returned.
fn write_over(out: &mut [u8], start: usize, text: &[u8]) -> usize
    requires { start + length text.now ≤ length out.old }
    ensures text { Writes out.old start text.now out.new result }
    ensures short { result ≡ start + length text.now }
{
    let end = start + text.len();
    out[start..end].copy_from_slice(text);
    end
}

impl Text {
    /// No byte.
    pub(crate) fn new(alloc: Global) -> Self
        ensures { result.text ≡ [] }
    {
        Text {
            bytes: Vec::new(alloc),
            start: 0,
            end: 0,
        }
    }

    /// Takes memory for so many bytes more. The text stays.
    pub(crate) fn reserve(&mut self, room: usize) -> Result<(), Memory>
        ensures text { self.new.text ≡ self.old.text }
        ensures room { OnOk result (room ≤ self.new.room) }
    {
        if self.bytes.len() - self.end < room {
            let wanted = self.end.checked_add(room).ok_or(Memory)?;
            self.bytes.resize(wanted, 0)?;
        }
        Ok(())
    }

    /// Adds bytes for which there is room.
    pub(crate) fn put(&mut self, text: &[u8])
        requires { length text.now ≤ self.old.room }
        ensures { self.new.text ≡ self.old.text ++ text.now }
    {
        self.end = write_over(self.bytes.as_mut_slice(), self.end, text);
    }

    /// Adds the line of the reply to the record at a place, for which there is room.
    pub(crate) fn put_reply(&mut self, at: u64, reply: &Reply)
        requires { line_bound reply.now ≤ self.old.room }
        ensures { self.new.text ≡ self.old.text ++ reply_line at reply.now }
    {
        self.end = write_reply_at(self.bytes.as_mut_slice(), self.end, at, reply);
    }

    /// Takes the first byte.
    pub(crate) fn next(&mut self) -> Option<u8>
        ensures { IsNext self.old.text self.new.text result }
    {
        if self.start == self.end {
            self.start = 0;
            self.end = 0;
            return None;
        }
        let byte = self.bytes[self.start];
        self.start += 1;
        Some(byte)
    }
}
