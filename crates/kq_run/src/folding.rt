//! The report of a trace by one fold of the whole system over it on one thread, each record as soon as it is read.

ghost use Rattle.std.specs.Prelude.{◌≡◌, IfErr, IfOk, List, None, ℕ};
ghost use Rattle.kq_model.specs.declared.event.Event.{Event};
ghost use Rattle.kq_model.specs.Report.{report_of};
ghost use Rattle.kq_run.specs.Folding.{HasFolded};
ghost use Rattle.kq_run.specs.Replay.{IsReportFrom, IsSourceFault};

use crate::fault::Fault;
use crate::fold::Fold;
use kq_merge::TextChunks;
use kq_model::{Event, Memory};
use kq_trace::{Decoders, Sink, Source, read_trace_into};
use std::alloc::Global;
use std::sync::Wait;
use std::thread::Threads;

/// Folds the whole system over the records that it takes, and keeps none.
#[derive(Drop)]
pub struct Folder {
    alloc: Global,
    /// None before the version is known.
    fold: Option<Fold>,
}

impl Folder {
    fn new(alloc: Global) -> Self
        ensures { result.fold ≡ None }
    {
        Folder { alloc, fold: None }
    }

    /// The report of the records that it took.
    fn report(self) -> Result<TextChunks, Memory>
        requires { (version : ℕ) × (events : List Event) × HasFolded version self events }
        ensures { IfOk result (λ text. (version : ℕ) (events : List Event) → HasFolded version self events
            → text ≡ report_of version events) }
    {
        let Some(fold) = self.fold else {
            unreachable!();
        };
        fold.report()
    }
}

impl Sink for Folder {
    ghost use Rattle.kq_run.specs.Folding.{HasFolded};

    ghost fresh = { λ f. f.fold ≡ None };

    ghost took = { HasFolded };

    fn begin(&mut self, version: u32) -> Result<(), Memory> {
        self.fold = Some(Fold::new(self.alloc, version)?);
        Ok(())
    }

    fn accept<R: AllocGlobal + Threads + Wait + Sync>(
        &mut self,
        _rt: &R,
        _before: u64,
        pieces: Vec<Vec<Event>>,
    ) -> Result<(), Memory> {
        let Some(fold) = self.fold.take() else {
            unreachable!();
        };
        self.fold = Some(fold.after_alone(self.alloc, pieces.as_slice())?);
        Ok(())
    }

    fn decoders(&self) -> Decoders {
        Decoders::Started { count: 0 }
    }
}

/// The report of the trace that a source has, by one fold of the whole system over it on the calling thread, which
/// reads it too.
pub fn fold_alone<R: AllocGlobal + Threads + Wait + Sync, I: Source + Send>(
    rt: &R,
    source: &mut I,
) -> Result<TextChunks, Fault>
    ensures report { IfOk result (λ text. IsReportFrom (I.ahead source.old) text) }
    ensures fault { IfErr result (λ fault. (workers : ℕ) → IsSourceFault I.may_fail (I.ahead source.old) workers fault) }
{
    let mut folder = Folder::new(rt.alloc());
    let _ = read_trace_into(rt, source, 1, &mut folder)?;
    Ok(folder.report()?)
}
