//! A replay of bytes, and of an input.
ghost use Rattle.kq_run.specs.Workers.{IsWorkerCount};

use crate::given::{REPORT, STORED};
use kq_run::{Fault, replay, replay_input};
use std::sync::Wait;
use std::test::Fail;
use std::thread::Threads;

#[test]
fn the_stored_run_is_reported(rt: HostRuntime) -> Result<(), Fail> {
    for workers in [1, 256] {
        let report = replay(&rt, STORED.as_bytes(), workers)?;
        assert!(rt; report.as_slice() == REPORT.as_bytes(), "by {workers}");
    }
    Ok(())
}

/// Whether an input with the stored run is reported.
fn is_reported<R: AllocGlobal + Threads + Wait + Sync>(rt: &R, workers: u32) -> Result<bool, Fault>
    requires { IsWorkerCount workers }
{
    let mut input = STORED.as_bytes();
    let mut report = Vec::new(rt.alloc());
    replay_input(rt, &mut input, STORED.len(), workers, &mut report)?;
    Ok(report.as_slice() == REPORT.as_bytes())
}

#[test]
fn the_stored_run_is_reported_of_an_input(rt: HostRuntime) -> Result<(), Fail> {
    assert!(rt; is_reported(&rt, 1)?, "by one");
    assert!(rt; is_reported(&rt, 2)?, "by two");
    assert!(rt; is_reported(&rt, 256)?, "by all");
    Ok(())
}
