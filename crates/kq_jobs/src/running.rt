//! The workers, and what they give together.
ghost use Rattle.std.specs.Prelude.{◌≡◌, ◌+◌, ◌≤◌, ◌<◌, ◌⊎◌, false, IfOk, IfErr};
ghost use Rattle.kq_jobs.specs.Outcomes.{FitSlots, AreOutcomes, IsStartFault, IsRunFault};

use crate::collector::{empty_slots, in_order, put_in};
use crate::counter::ClaimCounter;
use crate::fault::RunFault;
use crate::jobs::Jobs;
use crate::seat::ClaimSeat;
use crate::worker::{WorkOf, work};
use kq_threads::{Gate, Starts};
use std::alloc::Global;
use std::sync::Wait;
use std::thread;
use std::thread::Threads;

/// How many workers there can be.
pub const MOST_WORKERS: u32 = 256;

/// What the workers of a run share.
#[derive(Drop)]
struct Run<'a, J, G, S> {
    jobs: &'a J,
    gate: &'a G,
    starts: &'a S,
    counter: &'a ClaimCounter,
    /// How many workers there are.
    workers: u32,
}

// Starts the workers from this one on, and then is worker 1. Each level starts one, has the next level run, and joins
// its own; so those that were started are joined wherever a start is refused.
fn run_from<J: Jobs + Sync, R: Threads + Wait + Sync, G: Gate + Sync, S: Starts>(
    rt: &R,
    alloc: Global,
    run: &Run<J, G, S>,
    mut seat: ClaimSeat,
    worker: u32,
) -> Result<Vec<Option<J::Outcome>>, RunFault>
where
    J::Outcome: Send,
    requires seat { (seat.counter ≡ run.now.counter.now) × (seat.done ≡ false) }
    requires parts { run.now.workers + 1 < seat.parts + worker }
    requires count { run.now.counter.now.count ≡ J.count run.now.jobs.now }
    requires workers { (2 ≤ worker) × (worker ≤ run.now.workers + 1) × (run.now.workers ≤ 256) }
    ensures ok { IfOk result (λ v. FitSlots (J.gives run.now.jobs.now) (J.count run.now.jobs.now) v.items) }
    ensures err { IfErr result (λ e. IsStartFault worker run.now.workers e) }
{
    if worker > run.workers {
        let mut slots = empty_slots(alloc, run.jobs)?;
        let ran = work(alloc, run.jobs, run.gate, run.counter, seat, 1)?;
        put_in(run.jobs, &mut slots, ran);
        return Ok(slots);
    }
    if !run.starts.allow(worker) {
        return Err(RunFault::Spawn);
    }
    let theirs = run.counter.split(&mut seat);
    thread::scope(
        thread::scope_env(),
        rt,
        |scope| -> Result<Vec<Option<J::Outcome>>, RunFault>
            requires seat { (seat.counter ≡ run.now.counter.now) × (seat.done ≡ false) }
            requires theirs { theirs.counter ≡ run.now.counter.now }
            requires parts { run.now.workers < seat.parts + worker }
            requires count { run.now.counter.now.count ≡ J.count run.now.jobs.now }
            requires workers { (2 ≤ worker) × (worker ≤ run.now.workers) × (run.now.workers ≤ 256) }
            ensures ok { IfOk result (λ v.
                FitSlots (J.gives run.entry.now.jobs.now) (J.count run.entry.now.jobs.now) v.items) }
            ensures err { IfErr result (λ e. IsStartFault worker run.entry.now.workers e) }
        {
            let Run {
                jobs,
                gate,
                counter,
                ..
            } = *run;
            let Ok(child) = scope.spawn_with(WorkOf { jobs }, move || {
                work(alloc, jobs, gate, counter, theirs, worker)
            }) else {
                return Err(RunFault::Spawn);
            };
            let others = run_from(rt, alloc, run, seat, worker + 1);
            let ran = child.join(rt);
            let mut slots = others?;
            put_in(jobs, &mut slots, ran?);
            Ok(slots)
        },
    )
}

/// Runs all jobs by so many workers, 1 to 256, though by no more than there are jobs. The calling thread is worker 1;
/// `starts` is asked before each further worker, and all are started before worker 1 enters a job. The gate is asked
/// before each job, which it is told by its number from 1 on. The answer is what each job gave, in their order.
pub fn run_all<J: Jobs + Sync, R: Threads + Wait + Sync, G: Gate + Sync, S: Starts>(
    rt: &R,
    alloc: Global,
    jobs: &J,
    workers: u32,
    gate: &G,
    starts: &S,
) -> Result<Vec<J::Outcome>, RunFault>
where
    J::Outcome: Send,
    ensures workers { (workers ≡ 0) ⊎ (256 < workers) → result ≡ Err RunFault.Workers }
    ensures ok { IfOk result (λ v. AreOutcomes (J.gives jobs.now) (J.count jobs.now) v.items) }
    ensures err { IfErr result (λ e. IsRunFault (J.count jobs.now) workers e) }
{
    if workers == 0 || workers > MOST_WORKERS {
        return Err(RunFault::Workers);
    }
    let count = jobs.len();
    let (counter, seat) = ClaimCounter::new(alloc, u64::from(count))?;
    let needed = workers.min(count).max(1);
    let run = Run {
        jobs,
        gate,
        starts,
        counter: &counter,
        workers: needed,
    };
    let slots = run_from(rt, alloc, &run, seat, 2)?;
    let outcomes = in_order(alloc, jobs, slots)?;
    Ok(outcomes)
}
