//! What one worker does.
ghost use Rattle.std.specs.Prelude.{◌≡◌, IfOk};
ghost use Rattle.kq_jobs.specs.Outcomes.{AreRan};

use crate::counter::ClaimCounter;
use crate::jobs::Jobs;
use crate::seat::ClaimSeat;
use kq_model::Memory;
use kq_threads::Gate;
use std::alloc::Global;
use std::thread::Promise;

/// A job that was run, with what it gave.
#[derive(Drop)]
pub struct Ran<T> {
    pub number: u32,
    pub outcome: T,
}

/// Runs the jobs that the worker claims, until all were handed out. The gate is told their numbers from 1 on.
#[tactic(auto, using(crate::proofs::Collecting::ran_more))]
pub fn work<J: Jobs, G: Gate>(
    alloc: Global,
    jobs: &J,
    gate: &G,
    counter: &ClaimCounter,
    mut seat: ClaimSeat,
    worker: u32,
) -> Result<Vec<Ran<J::Outcome>>, Memory>
    requires seat { seat.counter ≡ counter.now }
    requires count { counter.now.count ≡ J.count jobs.now }
    ensures { IfOk result (λ ran. AreRan (J.gives jobs.now) ran.items) }
{
    let mut ran = Vec::new(alloc);
    for _ in 0..jobs.len() {
        let Some(claimed) = counter.claim(&mut seat) else {
            break;
        };
        let number = claimed as u32;
        ran.reserve(1)?;
        gate.enter(worker, number + 1);
        let outcome = jobs.run(number)?;
        ran.push_reserved(Ran { number, outcome });
    }
    Ok(ran)
}

/// For the prover alone: what a worker has done, once it is joined.
#[derive(Drop)]
pub struct WorkOf<'a, J: Jobs> {
    pub jobs: &'a J,
}

impl<'a, J: Jobs> Promise<Result<Vec<Ran<J::Outcome>>, Memory>> for WorkOf<'a, J> {
    ghost use Rattle.std.specs.Prelude.{IfOk};
    ghost use Rattle.kq_jobs.specs.Outcomes.{AreRan};

    ghost kept_by = { λ p r. IfOk r (λ ran. AreRan (J.gives p.jobs.now) ran.items) };
}
