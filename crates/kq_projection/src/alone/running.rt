//! All kqueues of a trace.
ghost use Rattle.std.specs.Prelude.{◌≡◌, ◌<◌, ◌⊎◌, length, IfOk, IfErr};
ghost use Rattle.kq_projection.specs.Traced.{places_of};
ghost use Rattle.kq_jobs.specs.Outcomes.{IsRunFault};
ghost use Rattle.kq_projection.specs.Replayed.{AreReplayed};

use crate::alone::jobs::KqueueJobs;
use crate::history::Split;
use kq_jobs::{RunFault, run_all};
use kq_model::Rows;
use kq_threads::{Always, Gate, Starts};
use std::sync::Wait;
use std::thread::Threads;

/// The rows of each kqueue of the trace, in the order of their birth, by so many workers, 1 to 256, though by no more
/// than there are kqueues. The calling thread is worker 1. The gate is asked before each kqueue is replayed, which it
/// is told by its number from 1 on.
pub fn replay_all<R: Threads + Wait + Sync, G: Gate + Sync>(
    rt: &R,
    split: &Split,
    workers: u32,
    gate: &G,
) -> Result<Vec<Rows>, RunFault>
    ensures workers { (workers ≡ 0) ⊎ (256 < workers) → result ≡ Err RunFault.Workers }
    ensures ok { IfOk result (λ kqueues. AreReplayed split.now kqueues.items) }
    ensures err { IfErr result (λ e. IsRunFault (length (places_of split.now)) workers e) }
{
    replay_all_with(rt, split, workers, gate, &Always)
}

/// The rows that [`replay_all`] gives, with `starts` asked before each further worker is started.
pub fn replay_all_with<R: Threads + Wait + Sync, G: Gate + Sync, S: Starts>(
    rt: &R,
    split: &Split,
    workers: u32,
    gate: &G,
    starts: &S,
) -> Result<Vec<Rows>, RunFault>
    ensures workers { (workers ≡ 0) ⊎ (256 < workers) → result ≡ Err RunFault.Workers }
    ensures ok { IfOk result (λ kqueues. AreReplayed split.now kqueues.items) }
    ensures err { IfErr result (λ e. IsRunFault (length (places_of split.now)) workers e) }
{
    let alloc = split.allocator();
    run_all(rt, alloc, &KqueueJobs { split }, workers, gate, starts)
}
