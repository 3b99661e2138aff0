//! A replay by one worker, by several that meet at a gate, and where a start is refused.
use crate::gates::{Counts, Meeting, Without};
use crate::given::FORKED;
use kq_run::{Fault, replay_with};
use kq_threads::{Always, Gate, Open, Starts};
use std::sync::Wait;
use std::test::Fail;
use std::thread::Threads;

// What the trace of three kqueues is answered.
const FORKED_REPORT: &str = concat!(
    "{\"at\":9,\"events\":[]}\n",
    "{\"at\":10,\"events\":[]}\n",
    "{\"at\":11,\"events\":[]}\n",
    "{\"at\":14,\"events\":[]}\n",
    "{\"at\":15,\"events\":[]}\n",
    "{\"at\":16,\"events\":[{\"data\":1,\"fflags\":0,\"filter\":\"READ\",\"flags\":[],\"ident\":3,\"udata\":0}]}\n",
    "{\"at\":17,\"events\":",
    "[{\"data\":2,\"fflags\":0,\"filter\":\"READ\",\"flags\":[\"ERROR\"],\"ident\":3,\"udata\":0}]}\n",
    "{\"calls\":7,\"events\":2,\"records\":17}\n",
);

// Whether the report comes, with this gate and these starts.
fn is_reported<R: AllocGlobal + Threads + Wait + Sync, G: Gate + Sync, S: Starts>(
    rt: &R,
    workers: u32,
    gate: &G,
    starts: &S,
) -> Result<bool, Fault> {
    let report = replay_with(rt, FORKED.as_bytes(), workers, gate, starts)?;
    Ok(report.as_slice() == FORKED_REPORT.as_bytes())
}

#[test]
fn each_kqueue_is_entered_once(rt: HostRuntime) -> Result<(), Fail> {
    for workers in [1, 2, 256] {
        let gate = Counts::new();
        assert!(rt; is_reported(&rt, workers, &gate, &Always)?, "by {workers}");
        assert!(rt; gate.all_once(), "by {workers}");
    }
    Ok(())
}

#[test]
fn two_workers_are_inside_at_once(rt: HostRuntime) -> Result<(), Fail> {
    let gate = Meeting::new(2, 2);
    assert!(rt; is_reported(&rt, 2, &gate, &Always)?);
    assert!(rt; gate.was_held());
    Ok(())
}

#[test]
fn a_kqueue_that_is_held_leaves_the_others_to_the_rest(rt: HostRuntime) -> Result<(), Fail> {
    let gate = Meeting::new(1, 3);
    assert!(rt; is_reported(&rt, 2, &gate, &Always)?);
    assert!(rt; gate.was_held());
    Ok(())
}

#[test]
fn a_worker_that_does_not_start_is_spawn(rt: HostRuntime) -> Result<(), Fail> {
    for worker in [2, 3] {
        let refused = is_reported(&rt, 256, &Open, &Without(worker));
        assert!(rt; matches!(refused, Err(Fault::Spawn)));
    }
    for (workers, worker) in [(256, 4), (1, 2)] {
        assert!(rt; is_reported(&rt, workers, &Open, &Without(worker))?);
    }
    Ok(())
}
