//! Bytes that one read took.

ghost use Rattle.std.specs.Prelude.{◌≡◌, ◌↔◌, ◌≤◌, [], drop, length, IfErr, IfOk, IsTrue, OnErr, OnOk};
ghost use Rattle.std.specs.Io.KnownBytes.{Consumes, IsAtEnd, Keeps};
ghost use Rattle.kq_input.specs.Unread.{most_read_bytes};

use kq_model::Memory;
use std::alloc::Global;
use std::io;
use std::io::Read;
use std::marker::Model;

/// How many a read asks for.
const BYTES: usize = 65_536;

/// What one read took and nobody has taken yet.
#[derive(Drop)]
pub struct Arrived {
    room: Vec<u8>,
    from: usize,
    to: usize,
}

impl Model for Arrived {
    ghost use Rattle.std.specs.Prelude.{◌≡◌, ◌≤◌, ◌-◌, ℕ, List, drop, length, take};
    ghost use Rattle.kq_input.specs.Unread.{most_read_bytes};

    ghost Value = { List ℕ };

    ghost view = { λ a. take (a.to - a.from) (drop a.from a.room.items) };

    ghost invariant = { λ a. (a.from ≤ a.to) × (a.to ≤ length a.room.items)
        × (length a.room.items ≡ most_read_bytes) };
}

impl Arrived {
    pub fn new(alloc: Global) -> Result<Self, Memory>
        ensures { IfOk result (λ arrived. arrived ≡ []) }
    {
        let room = vec![in alloc; 0u8; BYTES]?;
        Ok(Arrived {
            room,
            from: 0,
            to: 0,
        })
    }

    pub fn is_empty(&self) -> bool
        ensures { IsTrue result ↔ (self.now ≡ []) }
    {
        self.from == self.to
    }

    pub fn as_slice(&self) -> &[u8]
        ensures { result.now ≡ self.now }
    {
        &self.room[self.from..self.to]
    }

    /// Leaves the first bytes out, so many of them.
    pub fn skip(&mut self, count: usize)
        requires { count ≤ length self.old }
        ensures { self.new ≡ drop count self.old }
    {
        self.from += count;
    }

    /// Takes what comes next, in place of what is here; nothing comes only at the end, and where the read fails.
    pub fn refill<I: Read>(&mut self, input: &mut I) -> io::Result<()>
        ensures given { OnOk result (Consumes (I.remaining input.old) (I.remaining input.new) self.new) }
        ensures end { OnOk result (self.new ≡ [] → IsAtEnd (I.remaining input.new)) }
        ensures failed { OnErr result (Keeps (I.remaining input.old) (I.remaining input.new)) }
        ensures none { OnErr result (self.new ≡ []) }
        ensures few { length self.new ≤ most_read_bytes }
    {
        self.from = 0;
        self.to = 0;
        self.to = input.read(&mut self.room)?;
        Ok(())
    }
}
