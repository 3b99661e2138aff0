//! Where the records of a text go.

ghost use Rattle.std.specs.Prelude.{◌≡◌, ◌<◌, ◌+◌, ◌^◌, ◌++◌, ℕ, List, OnOk, flat_map};
ghost use Rattle.std.specs.Prelude.{length, []};
ghost use Rattle.kq_model.specs.declared.event.Event.{Event};
ghost use Rattle.kq_model.specs.Limits.{IsVersion};
ghost use Rattle.kq_trace.specs.Sink.{HasTaken};

use crate::decoders::Decoders;
use kq_model::{Event, Memory};
use std::alloc::Global;
use std::sync::Wait;
use std::thread::Threads;

/// Takes the records of a trace, a part after the other.
pub trait Sink {
    // It was begun with no version yet.
    ghost fresh: { Self → Type 0 };

    // Of a trace of this version these are the events that it took.
    ghost took: { ℕ → Self → List Event → Type 0 };

    /// Begins with the version of the trace, before its first record. After Memory nothing is known.
    fn begin(&mut self, version: u32) -> Result<(), Memory>
        requires version { IsVersion version }
        requires fresh { fresh self.old }
        ensures { OnOk result (took version self.new []) };

    /// Takes the events of the records that follow so many, in pieces, and may start threads for that. After Memory
    /// nothing is known.
    fn accept<R: AllocGlobal + Threads + Wait + Sync>(
        &mut self,
        rt: &R,
        before: u64,
        pieces: Vec<Vec<Event>>,
    ) -> Result<(), Memory>
        requires before { HasTaken took before self.old }
        requires few { before + length (flat_map (λ piece. piece.items) pieces.items) < 2 ^ 31 }
        ensures { OnOk result ((version : ℕ) (so_far : List Event) → length so_far ≡ before
            → took version self.old so_far
            → took version self.new (so_far ++ flat_map (λ piece. piece.items) pieces.items)) };

    /// The threads that may decode while it takes the next part. Where they are none, nobody reads ahead then.
    fn decoders(&self) -> Decoders;
}

/// Keeps the records.
#[derive(Drop)]
pub struct Kept {
    events: Vec<Event>,
}

impl Kept {
    ghost use Rattle.kq_trace.specs.Sink.{kept_events};

    /// No record.
    pub fn new(alloc: Global) -> Self
        ensures { kept_events result ≡ [] }
    {
        Kept {
            events: Vec::new(alloc),
        }
    }

    /// The events that it took.
    pub fn into_events(self) -> Vec<Event>
        ensures { result.items ≡ kept_events self }
    {
        self.events
    }
}

impl Sink for Kept {
    ghost use Rattle.kq_trace.specs.Sink.{Keeps, kept_events};

    ghost fresh = { λ k. kept_events k ≡ [] };

    ghost took = { Keeps };

    fn begin(&mut self, _version: u32) -> Result<(), Memory> {
        Ok(())
    }

    fn accept<R: AllocGlobal + Threads + Wait + Sync>(
        &mut self,
        _rt: &R,
        _before: u64,
        pieces: Vec<Vec<Event>>,
    ) -> Result<(), Memory> {
        for mut piece in pieces {
            self.events.append(&mut piece)?;
        }
        Ok(())
    }

    fn decoders(&self) -> Decoders {
        Decoders::Pool { most: u32::MAX }
    }
}
