//! The rows of each kqueue, by any number of workers.
ghost use Rattle.kq_projection.specs.Traced.{IsBorn};

use crate::dup::dup_over;
use crate::gates::{Meeting, Without};
use kq_model::{Memory, Reply, Row, Rows, Trace};
use kq_projection::{Replay, RunFault, Split, replay_all, replay_all_with};
use kq_threads::{Always, Gate, Open, Starts};
use std::alloc::Global;
use std::process::Abort;
use std::sync::Wait;
use std::test::Fail;
use std::thread::Threads;

/// The place of a row, and how many events were returned.
type Told = (u64, usize);

/// The rows of each kqueue.
const EXPECTED: [&[Told]; 3] = [
    &[(9, 0), (14, 0), (17, 1)],
    &[(10, 0), (15, 0)],
    &[(11, 0), (16, 1)],
];

fn told(row: &Row) -> Told {
    match &row.reply {
        Reply::Events(events) => (row.at, events.len()),
        _ => (row.at, 9),
    }
}

/// Whether a kqueue has these rows.
fn are_told(rows: &Rows, expected: &[Told]) -> bool {
    let mut are_told = rows.rows.len() == expected.len();
    for (row, expected) in rows.rows.as_slice().iter().zip(expected) {
        are_told &= told(row) == *expected;
    }
    are_told
}

/// Whether these are the rows of all kqueues.
fn are_all(kqueues: &[Rows]) -> bool {
    let mut are_all = kqueues.len() == EXPECTED.len();
    for (rows, expected) in kqueues.iter().zip(&EXPECTED) {
        are_all &= are_told(rows, expected);
    }
    are_all
}

/// Whether all rows come, with this gate and these starts.
fn all_come<R: Threads + Wait + Sync, G: Gate + Sync, S: Starts>(
    rt: &R,
    alloc: Global,
    workers: u32,
    gate: &G,
    starts: &S,
) -> Result<bool, RunFault> {
    let trace = dup_over(alloc)?;
    all_come_of(rt, alloc, &trace, workers, gate, starts)
}

fn all_come_of<R: Threads + Wait + Sync, G: Gate + Sync, S: Starts>(
    rt: &R,
    alloc: Global,
    trace: &Trace,
    workers: u32,
    gate: &G,
    starts: &S,
) -> Result<bool, RunFault> {
    let split = Split::of(alloc, trace)?;
    all_come_by(rt, &split, workers, gate, starts)
}

fn all_come_by<R: Threads + Wait + Sync, G: Gate + Sync, S: Starts>(
    rt: &R,
    split: &Split,
    workers: u32,
    gate: &G,
    starts: &S,
) -> Result<bool, RunFault> {
    let kqueues = replay_all_with(rt, split, workers, gate, starts)?;
    Ok(are_all(kqueues.as_slice()))
}

/// Whether all rows come of a call that asks no starts, with this gate.
fn all_come_in<R: AllocGlobal + Threads + Wait + Sync, G: Gate + Sync>(
    rt: &R,
    trace: &Trace,
    workers: u32,
    gate: &G,
) -> Result<bool, RunFault> {
    let split = Split::of(rt.alloc(), trace)?;
    all_come_from(rt, &split, workers, gate)
}

fn all_come_from<R: Threads + Wait + Sync, G: Gate + Sync>(
    rt: &R,
    split: &Split,
    workers: u32,
    gate: &G,
) -> Result<bool, RunFault> {
    let kqueues = replay_all(rt, split, workers, gate)?;
    Ok(are_all(kqueues.as_slice()))
}

/// Where the third kqueue was made.
fn third(rt: &impl Abort, split: &Split) -> u64
    ensures { IsBorn result split.now }
{
    let kqueues = split.kqueues();
    assert!(rt; kqueues.len() == 3);
    kqueues[2]
}

/// Whether the private list of the third kqueue gives its rows.
fn is_given(rt: &impl Abort, split: &Split) -> Result<bool, Memory> {
    let kqueue = third(rt, split);
    let rows = split.private(kqueue)?.replay()?;
    Ok(are_told(&rows, EXPECTED[2]))
}

fn is_given_in(rt: &impl Abort, alloc: Global, trace: &Trace) -> Result<bool, Memory> {
    let split = Split::of(alloc, trace)?;
    is_given(rt, &split)
}

#[test]
fn one_kqueue_gives_its_rows(rt: HostRuntime) -> Result<(), Fail> {
    let trace = dup_over(rt.alloc())?;
    assert!(rt; is_given_in(&rt, rt.alloc(), &trace)?);
    Ok(())
}

#[test]
fn any_number_of_workers_gives_all_rows(rt: HostRuntime) {
    for workers in [1, 2, 256] {
        assert!(rt; all_come(&rt, rt.alloc(), workers, &Open, &Always) == Ok(true));
    }
}

#[test]
fn two_workers_are_inside_at_once(rt: HostRuntime) {
    let gate = Meeting::new(2, 2);
    assert!(rt; all_come(&rt, rt.alloc(), 2, &gate, &Always) == Ok(true));
    assert!(rt; gate.was_held());
}

#[test]
fn two_workers_are_inside_at_once_where_no_starts_are_asked(rt: HostRuntime) -> Result<(), Fail> {
    let trace = dup_over(rt.alloc())?;
    let gate = Meeting::new(2, 2);
    assert!(rt; all_come_in(&rt, &trace, 2, &gate) == Ok(true));
    assert!(rt; gate.was_held());
    Ok(())
}

#[test]
fn a_start_is_refused(rt: HostRuntime) {
    for worker in [2, 3] {
        let refused = all_come(&rt, rt.alloc(), 256, &Open, &Without(worker));
        assert!(rt; refused == Err(RunFault::Spawn));
    }
}
