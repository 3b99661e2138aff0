//! What no clause says of jobs that many workers run: that calls succeed, which error comes when, that each job is
//! entered once, and that workers run at once.
ghost use Rattle.std.specs.Prelude.{◌≡◌, ◌*◌};

use crate::gates::{Counts, Meeting, Without};
use kq_jobs::{Jobs, RunFault, run_all};
use kq_model::Memory;
use kq_threads::{Always, Gate, Open, Starts};
use std::alloc::Global;
use std::process::Abort;
use std::sync::Wait;
use std::sync::atomic::AtomicU64;
use std::sync::atomic::Ordering::SeqCst;
use std::test::Fail;
use std::thread::Threads;

// The squares of the numbers below this one.
#[derive(Clone, Copy)]
struct Squares(u32);

impl Jobs for Squares {
    type Outcome = u64;

    ghost count = { λ jobs. jobs.0 };

    ghost gives = { λ jobs n square. square ≡ n * n };

    fn len(&self) -> u32 {
        self.0
    }

    fn run(&self, number: u32) -> Result<u64, Memory> {
        let number = u64::from(number);
        Ok(number * number)
    }
}

// The same, with a count of the runs.
#[derive(Drop)]
struct Counted {
    squares: Squares,
    runs: AtomicU64,
}

impl Jobs for Counted {
    type Outcome = u64;

    ghost count = { λ jobs. jobs.squares.0 };

    ghost gives = { λ jobs n square. square ≡ n * n };

    fn len(&self) -> u32 {
        self.squares.len()
    }

    fn run(&self, number: u32) -> Result<u64, Memory> {
        self.runs.fetch_add(1, SeqCst);
        self.squares.run(number)
    }
}

// The sum of the squares, and how many there are.
fn summed<R: Threads + Wait + Sync, G: Gate + Sync, S: Starts>(
    rt: &R,
    alloc: Global,
    count: u32,
    workers: u32,
    gate: &G,
    starts: &S,
) -> Result<(u64, usize), RunFault> {
    let squares = run_all(rt, alloc, &Squares(count), workers, gate, starts)?;
    let mut sum = 0u64;
    for square in &squares {
        sum = sum.wrapping_add(*square);
    }
    Ok((sum, squares.len()))
}

// Jobs, of which so many workers give this sum and this number of squares.
fn assert_summed<R: Abort + AllocGlobal + Threads + Wait + Sync, G: Gate + Sync, S: Starts>(
    rt: &R,
    (count, workers): (u32, u32),
    gate: &G,
    starts: &S,
    expected: Result<(u64, usize), RunFault>,
) {
    let summed = summed(rt, rt.alloc(), count, workers, gate, starts);
    assert_eq!(rt; summed, expected);
}

// A count for each of so many jobs.
fn counts(alloc: Global, jobs: u32) -> Result<Counts, Memory> {
    let mut entered = Vec::new(alloc);
    for _ in 0..jobs {
        entered.push(AtomicU64::new(0)).map_err(|_| Memory)?;
    }
    Ok(Counts { entered })
}

fn squares_to_count(count: u32) -> Counted {
    Counted {
        squares: Squares(count),
        runs: AtomicU64::new(0),
    }
}

// How many outcomes three hundred jobs have, how often a job is run, and whether each is entered once.
fn ran_once<R: AllocGlobal + Threads + Wait + Sync>(
    rt: &R,
    workers: u32,
) -> Result<(Result<usize, RunFault>, u64, bool), Memory> {
    let gate = counts(rt.alloc(), 300)?;
    let jobs = squares_to_count(300);
    let ran = run_all(rt, rt.alloc(), &jobs, workers, &gate, &Always);
    Ok((
        ran.map(|all| all.len()),
        jobs.runs.load(SeqCst),
        gate.all_once(),
    ))
}

#[test]
fn each_job_is_entered_and_run_once(rt: HostRuntime) -> Result<(), Fail> {
    for workers in [1, 2, 256] {
        assert_eq!(rt; ran_once(&rt, workers)?, (Ok(300), 300, true));
    }
    Ok(())
}

#[test]
fn two_workers_are_inside_at_once(rt: HostRuntime) {
    let gate = Meeting::new(2, 2);
    assert_summed(&rt, (3, 2), &gate, &Always, Ok((5, 3)));
    assert!(rt; gate.was_held());
}

#[test]
fn a_worker_that_is_held_leaves_the_others_to_the_rest(rt: HostRuntime) {
    let gate = Meeting::new(1, 3);
    assert_summed(&rt, (3, 2), &gate, &Always, Ok((5, 3)));
    assert!(rt; gate.was_held());
}

#[test]
fn a_start_is_refused(rt: HostRuntime) {
    let spawn = Err(RunFault::Spawn);
    assert_summed(&rt, (3, 256), &Open, &Without(2), spawn);
    assert_summed(&rt, (3, 256), &Open, &Without(3), spawn);
    assert_summed(&rt, (3, 256), &Open, &Without(4), Ok((5, 3)));
    assert_summed(&rt, (3, 1), &Open, &Without(2), Ok((5, 3)));
}

// Jobs of which the last has no memory.
#[derive(Clone, Copy)]
struct Forgetful;

impl Jobs for Forgetful {
    type Outcome = u32;

    ghost count = { λ _. 3 };

    ghost gives = { λ _ n given. given ≡ n };

    fn len(&self) -> u32 {
        3
    }

    fn run(&self, number: u32) -> Result<u32, Memory> {
        if number == 2 { Err(Memory) } else { Ok(number) }
    }
}

#[test]
fn a_job_without_memory_is_no_answer(rt: HostRuntime) {
    for workers in [1, 2, 3] {
        let ran = run_all(&rt, rt.alloc(), &Forgetful, workers, &Open, &Always);
        assert_eq!(rt; ran.map(|all| all.len()), Err(RunFault::Memory));
    }
}
