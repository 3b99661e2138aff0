//! One pipe: its bytes and capacity, the descriptors of each end, and what a filter sees.

ghost use Rattle.std.specs.Prelude.{◌≡◌, ◌^◌, pos, ◌+ℤ◌, ◌<ℤ◌};
ghost use Rattle.kq_model.specs.Objects.{counted};
ghost use Rattle.kq_model.specs.Pipes.{pipe_view, is_pipe_held, has_reader, has_writer, pipe_space};
ghost use Rattle.kq_model.specs.Holding.{is_last};
ghost use Rattle.kq_objects.specs.Fits.{FitsPipeAt, made_pipe};

use crate::object::Object;
use kq_model::{PipeRecord, Side, View};
use std::marker::Model;

/// What is kept of one pipe. Contracts see its quantities.
#[derive(Drop, Clone, Copy)]
pub struct Pipe {
    pub(crate) cap: u32,
    pub(crate) bytes: u32,
    pub(crate) readers: u64,
    pub(crate) writers: u64,
}

impl Model for Pipe {
    ghost use Rattle.std.specs.Prelude.{pos, unsigned_abs};
    ghost use Rattle.kq_model.specs.Pipes.{PipeState};

    ghost Value = { PipeState };

    ghost view = { λ s. record {
      cap = s.cap;
      bytes = pos s.bytes;
      readers = pos s.readers;
      writers = pos s.writers;
    } };

    ghost inverse = { λ v. record {
      cap = v.cap;
      bytes = unsigned_abs v.bytes;
      readers = unsigned_abs v.readers;
      writers = unsigned_abs v.writers;
    } };
}

impl Object for Pipe {
    type Record = PipeRecord;

    ghost book = { counted.pipes };

    ghost stays = { is_pipe_held };

    ghost fits = { FitsPipeAt };

    ghost makes = { made_pipe };

    #[tactic(auto, unfolding(kq_model::specs::Pipes::pipe_after))]
    fn first(told: PipeRecord) -> Self {
        let PipeRecord::Made { cap } = told else {
            unreachable!();
        };
        Pipe {
            cap,
            bytes: 0,
            readers: 1,
            writers: 1,
        }
    }

    #[tactic(auto, unfolding(kq_model::specs::Pipes::pipe_after))]
    fn tell(&mut self, told: PipeRecord) {
        match told {
            PipeRecord::Made { .. } => unreachable!(),
            PipeRecord::Read { bytes } => self.bytes -= bytes,
            PipeRecord::Written { bytes } => self.bytes += bytes,
            PipeRecord::Held { end } => match end {
                Side::Read => self.readers += 1,
                Side::Write => self.writers += 1,
            },
            PipeRecord::Released { end } => match end {
                Side::Read => self.readers -= 1,
                Side::Write => self.writers -= 1,
            },
        }
    }

    fn is_held(&self) -> bool {
        self.has_reader() || self.has_writer()
    }
}

impl Pipe {
    /// Whether the read end is open.
    pub fn has_reader(&self) -> bool
        ensures { result ≡ has_reader self.now }
    {
        self.readers > 0
    }

    /// Whether the write end is open.
    pub fn has_writer(&self) -> bool
        ensures { result ≡ has_writer self.now }
    {
        self.writers > 0
    }

    /// Whether just one descriptor names the read end, or none.
    pub fn is_last_reader(&self) -> bool
        ensures { result ≡ is_last self.now.readers }
    {
        self.readers <= 1
    }

    /// Whether just one descriptor names the write end, or none.
    pub fn is_last_writer(&self) -> bool
        ensures { result ≡ is_last self.now.writers }
    {
        self.writers <= 1
    }

    /// How many more bytes fit into it.
    pub fn space(&self) -> i64
        ensures exact { result ≡ pipe_space self.now }
        ensures small { (result +ℤ self.now.bytes) <ℤ pos (2 ^ 32) }
    {
        i64::from(self.cap) - i64::from(self.bytes)
    }

    /// What a filter sees of it.
    #[tactic(auto, unfolding(kq_model::specs::Pipes::pipe_view))]
    pub fn view(&self) -> View
        ensures { result ≡ pipe_view self.now }
    {
        View::Pipe {
            bytes: i64::from(self.bytes),
            cap: i64::from(self.cap),
            writer: self.has_writer(),
            reader: self.has_reader(),
        }
    }
}
