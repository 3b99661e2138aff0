//! The whole system, folded over the records of a trace, and the report of what it answers.

ghost use Rattle.std.specs.Prelude.{◌≡◌, ◌<◌, ◌+◌, ◌^◌, ◌++◌, [], IfOk, List, flat_map};
ghost use Rattle.std.specs.Prelude.{length, ℕ};
ghost use Rattle.kq_model.specs.declared.event.Event.{Event};
ghost use Rattle.kq_model.specs.Limits.{IsVersion};
ghost use Rattle.kq_model.specs.Report.{report_of};
ghost use Rattle.kq_run.specs.Folding.{Answers, GoesOn, IsFolded};

use crate::lines::with_rows;
use crate::row_sink::RowSink;
use kq_merge::{ReportText, TextChunks};
use kq_model::{Event, Memory, Row};
use kq_system::System;
use kq_threads::join;
use std::alloc::Global;
use std::sync::Wait;
use std::thread::Threads;

/// The whole system after the records so far, and the report of what it answered. It can be moved at little cost.
#[derive(Drop)]
pub struct Fold {
    pub system: Box<System>,
    pub text: ReportText,
    /// The last rows, whose lines are not yet written.
    pub waiting: Vec<Row>,
}

impl Fold {
    /// Before the first record of a trace of this version.
    pub fn new(alloc: Global, version: u32) -> Result<Self, Memory>
        requires { IsVersion version }
        ensures { IfOk result (λ fold. IsFolded version fold []) }
    {
        let system = System::new(alloc, version)?;
        let system = Box::new(alloc, system)?;
        Ok(Fold {
            system,
            text: ReportText::new(alloc),
            waiting: Vec::new(alloc),
        })
    }

    /// After these pieces of records more, the line of each row written at once.
    pub fn after_alone(self, alloc: Global, pieces: &[Vec<Event>]) -> Result<Self, Memory>
        requires { self.system.value.applied + length (flat_map (λ piece. piece.items) pieces.now) < 2 ^ 31 }
        ensures { IfOk result (λ fold. GoesOn self fold (flat_map (λ piece. piece.items) pieces.now)) }
    {
        let Fold {
            system,
            text,
            waiting,
        } = self;
        let text = with_rows(text, waiting)?;
        let (system, text) = answered_in_box(system, text, pieces)?;
        Ok(Fold {
            system,
            text,
            waiting: Vec::new(alloc),
        })
    }

    /// After these pieces of records more: their rows wait, and another thread writes the lines of those that waited.
    /// Memory comes where it does not start, too.
    pub fn after_beside<R: AllocGlobal + Threads + Wait>(
        self,
        rt: &R,
        pieces: &[Vec<Event>],
    ) -> Result<Self, Memory>
        requires { self.system.value.applied + length (flat_map (λ piece. piece.items) pieces.now) < 2 ^ 31 }
        ensures { IfOk result (λ fold. GoesOn self fold (flat_map (λ piece. piece.items) pieces.now)) }
    {
        let Fold {
            system,
            text,
            waiting,
        } = self;
        let rows = Vec::new(rt.alloc());
        let joined = join(
            rt,
            move || with_rows(text, waiting),
            move || answered_in_box(system, rows, pieces),
        );
        if !joined.has_started {
            return Err(Memory);
        }
        let text = joined.first?;
        let (system, waiting) = joined.second?;
        Ok(Fold {
            system,
            text,
            waiting,
        })
    }

    /// The report of the records so far.
    pub fn report(self) -> Result<TextChunks, Memory>
        ensures { IfOk result (λ text. (version : ℕ) (events : List Event) → IsFolded version self events
            → text ≡ report_of version events) }
    {
        let Fold {
            system,
            text,
            waiting,
        } = self;
        with_rows(text, waiting)?.end_in_chunks(system.applied())
    }
}

/// The system after these pieces of records more, and what took the rows.
fn answered_in_box<K: RowSink + Drop>(
    mut system: Box<System>,
    rows: K,
    pieces: &[Vec<Event>],
) -> Result<(Box<System>, K), Memory>
    requires { system.value.applied + length (flat_map (λ piece. piece.items) pieces.now) < 2 ^ 31 }
    ensures { IfOk result (λ after.
        Answers K.took system.value rows after.0.value after.1 (flat_map (λ piece. piece.items) pieces.now)) }
{
    let rows = answered(&mut system, rows, pieces)?;
    Ok((system, rows))
}

/// Takes the system past these pieces of records: what took the rows.
fn answered<K: RowSink + Drop>(
    system: &mut System,
    mut rows: K,
    pieces: &[Vec<Event>],
) -> Result<K, Memory>
    requires { system.old.applied + length (flat_map (λ piece. piece.items) pieces.now) < 2 ^ 31 }
    ensures { IfOk result (λ after.
        Answers K.took system.old rows system.new after (flat_map (λ piece. piece.items) pieces.now)) }
{
    for piece in pieces {
        rows = answered_piece(system, rows, piece.as_slice())?;
    }
    Ok(rows)
}

/// Takes the system past the records of one piece: what took the rows.
fn answered_piece<K: RowSink + Drop>(
    system: &mut System,
    mut rows: K,
    events: &[Event],
) -> Result<K, Memory>
    requires { system.old.applied + length events.now < 2 ^ 31 }
    ensures { IfOk result (λ after. Answers K.took system.old rows system.new after events.now) }
{
    for event in events {
        let reply = system.apply(event)?;
        rows = rows.with_reply(system.applied(), reply)?;
    }
    Ok(rows)
}
