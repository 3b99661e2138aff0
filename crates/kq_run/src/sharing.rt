//! The report of a trace by several threads: the whole system where the trace begins with fewer than two kqueues, and
//! else shares of it, each record as soon as it is read.

ghost use Rattle.std.specs.Prelude.{◌≡◌, ◌≤◌, ◌<◌, ◌+◌, ◌^◌, ◌++◌, ℕ, [], IfErr, IfOk, List, flat_map, length};
ghost use Rattle.kq_model.specs.declared.event.Event.{Event};
ghost use Rattle.kq_model.specs.Limits.{IsVersion};
ghost use Rattle.kq_model.specs.Report.{report_of};
ghost use Rattle.kq_run.specs.Replay.{HasKqueues, IsReplayFault, IsReportFrom, IsSourceFault};
ghost use Rattle.kq_run.specs.Sharing.{Folds, HasFolded, IsShared};

use crate::fault::Fault;
use crate::fold::Fold;
use crate::shared_fold::SharedFold;
use kq_merge::TextChunks;
use kq_model::{Event, Memory};
use kq_shares::{MOST_SHARES, ShareFault, births_in, dealing_for};
use kq_trace::{Decoders, Sink, Source, read_trace_into};
use std::alloc::Global;
use std::mem::replace;
use std::sync::Wait;
use std::thread::Threads;

/// By few workers a share pays from so many kqueues on.
const LEAST_KQUEUES: usize = 4;

/// How far a trace was folded.
#[derive(Drop)]
pub enum Folding {
    /// No version is known.
    New,
    /// A trace of this version, of which no record came.
    Begun { version: u32 },
    /// By the whole system, which another thread writes lines for.
    Whole(Fold),
    /// By shares.
    Shared(SharedFold),
    /// Not to its end, since the thread of a share was not started.
    Refused,
}

impl Folding {
    /// After these pieces of records more, by so many workers.
    fn after<R: AllocGlobal + Threads + Wait>(
        self,
        rt: &R,
        workers: u32,
        pieces: &[Vec<Event>],
    ) -> Result<Self, Memory>
        requires { (version : ℕ) × (before : List Event) × Folds version self before
            × (length before + length (flat_map (λ piece. piece.items) pieces.now) < 2 ^ 31) }
        ensures { IfOk result (λ next. (version : ℕ) (before : List Event) → Folds version self before
            → Folds version next (before ++ flat_map (λ piece. piece.items) pieces.now)) }
    {
        match self {
            Folding::New => unreachable!(),
            Folding::Begun { version } => begun(rt, version, workers, pieces),
            Folding::Whole(fold) => Ok(Folding::Whole(fold.after_beside(rt, pieces)?)),
            Folding::Shared(fold) => shared(rt, fold, pieces),
            Folding::Refused => Ok(Folding::Refused),
        }
    }

    /// The report of the records so far.
    fn report(self, alloc: Global) -> Result<TextChunks, Fault>
        requires { (version : ℕ) × (events : List Event) × Folds version self events }
        ensures text { IfOk result (λ text. (version : ℕ) (events : List Event) → Folds version self events
            → text ≡ report_of version events) }
        ensures fault { IfErr result (λ fault. (version : ℕ) (events : List Event) (workers : ℕ) → 2 ≤ workers
            → Folds version self events → IsReplayFault version events workers fault) }
    {
        match self {
            Folding::New => unreachable!(),
            Folding::Begun { version } => Ok(Fold::new(alloc, version)?.report()?),
            Folding::Whole(fold) => Ok(fold.report()?),
            Folding::Shared(fold) => Ok(fold.report(alloc)?),
            Folding::Refused => Err(Fault::Spawn),
        }
    }
}

/// The first records of a trace of this version.
fn begun<R: AllocGlobal + Threads + Wait>(
    rt: &R,
    version: u32,
    workers: u32,
    pieces: &[Vec<Event>],
) -> Result<Folding, Memory>
    requires version { IsVersion version }
    requires few { length (flat_map (λ piece. piece.items) pieces.now) < 2 ^ 31 }
    ensures { IfOk result (λ next. Folds version next (flat_map (λ piece. piece.items) pieces.now)) }
{
    let alloc = rt.alloc();
    let births = first_births(alloc, pieces)?;
    let shares = shares_for(workers, births.len());
    if shares < 2 {
        let fold = Fold::new(alloc, version)?;
        return Ok(Folding::Whole(fold.after_beside(rt, pieces)?));
    }
    let fold = SharedFold::new(alloc, version, dealing_for(births.as_slice(), shares))?;
    shared(rt, fold, pieces)
}

/// The places of kqueues that the first of these records make, where the trace begins with them.
fn first_births(alloc: Global, pieces: &[Vec<Event>]) -> Result<Vec<u64>, Memory>
    requires { length (flat_map (λ piece. piece.items) pieces.now) < 2 ^ 31 }
    ensures { IfOk result (λ births. (version : ℕ) → 2 ≤ length births.items
        → HasKqueues version (flat_map (λ piece. piece.items) pieces.now)) }
{
    match pieces.first() {
        Some(piece) => births_in(alloc, piece.as_slice()),
        None => Ok(Vec::new(alloc)),
    }
}

/// How many shares pay where so many kqueues are made first. A thread writes lines beside them and, by three workers
/// and more, one reads ahead. By two and three workers two shares do, where each has some kqueues.
fn shares_for(workers: u32, births: usize) -> u32
    ensures most { result ≤ MOST_SHARES }
    ensures births { result ≤ births }
{
    if workers < 4 {
        return if births < 2 * LEAST_KQUEUES {
            births.min(1) as u32
        } else {
            2
        };
    }
    let most = (workers - 1).min(MOST_SHARES);
    if births < most as usize {
        births as u32
    } else {
        most
    }
}

/// What a fold by shares, of which there are two or more, comes to after these pieces of records more.
fn shared<R: AllocGlobal + Threads + Wait>(
    rt: &R,
    fold: SharedFold,
    pieces: &[Vec<Event>],
) -> Result<Folding, Memory>
    requires { (version : ℕ) × (before : List Event) × IsShared version fold before
        × (length before + length (flat_map (λ piece. piece.items) pieces.now) < 2 ^ 31) }
    ensures { IfOk result (λ next. (version : ℕ) (before : List Event) → IsShared version fold before
        → HasKqueues version (before ++ flat_map (λ piece. piece.items) pieces.now)
        → Folds version next (before ++ flat_map (λ piece. piece.items) pieces.now)) }
{
    match fold.after(rt, pieces) {
        Ok(fold) => Ok(Folding::Shared(fold)),
        Err(ShareFault::Spawn) => Ok(Folding::Refused),
        Err(ShareFault::Memory) => Err(Memory),
    }
}

/// Folds the records that it takes by several threads, and keeps none.
#[derive(Drop)]
pub struct Sharer {
    alloc: Global,
    workers: u32,
    pub folding: Folding,
}

impl Sink for Sharer {
    ghost use Rattle.std.specs.Prelude.{◌≡◌};
    ghost use Rattle.kq_run.specs.declared.sharing.Folding.TheVariants.{New};
    ghost use Rattle.kq_run.specs.Sharing.{HasFolded};

    ghost fresh = { λ s. s.folding ≡ New };

    ghost took = { HasFolded };

    fn begin(&mut self, version: u32) -> Result<(), Memory> {
        self.folding = Folding::Begun { version };
        Ok(())
    }

    fn accept<R: AllocGlobal + Threads + Wait + Sync>(
        &mut self,
        rt: &R,
        _before: u64,
        pieces: Vec<Vec<Event>>,
    ) -> Result<(), Memory> {
        let folding = replace(&mut self.folding, Folding::New);
        self.folding = folding.after(rt, self.workers, pieces.as_slice())?;
        Ok(())
    }

    fn decoders(&self) -> Decoders {
        let count = match &self.folding {
            Folding::Whole(_) => self.workers.saturating_sub(1),
            Folding::Shared(fold) => self
                .workers
                .saturating_sub(fold.shares.count().min(MOST_SHARES as usize) as u32),
            // It may be shared next, by two workers with no thread to spare.
            Folding::New | Folding::Begun { .. } | Folding::Refused => {
                self.workers.saturating_sub(2).min(1)
            }
        };
        Decoders::Started { count }
    }
}

/// The report of the trace that a source has, by so many workers, two or more: of as many threads as that at a time,
/// the calling one aside, one writes the lines of the rows before, each further share of the kqueues has one, and the
/// others read and decode what comes behind.
pub fn fold_by_shares<R: AllocGlobal + Threads + Wait + Sync, I: Source + Send>(
    rt: &R,
    source: &mut I,
    workers: u32,
) -> Result<TextChunks, Fault>
    requires { 2 ≤ workers }
    ensures report { IfOk result (λ text. IsReportFrom (I.ahead source.old) text) }
    ensures fault { IfErr result (IsSourceFault I.may_fail (I.ahead source.old) workers) }
{
    let alloc = rt.alloc();
    let mut sharer = Sharer {
        alloc,
        workers,
        folding: Folding::New,
    };
    let _ = read_trace_into(rt, source, workers, &mut sharer)?;
    sharer.folding.report(alloc)
}
