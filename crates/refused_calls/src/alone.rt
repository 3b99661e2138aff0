//! A trace each of whose kqueues is replayed alone.

use crate::Outcome;
use crate::fault::Fault;
use kq_run::{Fault as ReplayFault, replay_with};
use kq_threads::{Always, Open};
use std::sync::Wait;
use std::thread::Threads;

/// The report of the trace that the bytes are, by so many workers. It is replayed a second time where `Memory` was
/// answered.
pub fn replayed<R: AllocGlobal + Threads + Wait + Sync>(
    rt: &R,
    bytes: &[u8],
    workers: u32,
) -> Result<Outcome, Fault> {
    match replay_with(rt, bytes, workers, &Open, &Always) {
        Ok(text) => Ok(Outcome { text, again: 0 }),
        Err(ReplayFault::Memory) => {
            let text = replay_with(rt, bytes, workers, &Open, &Always)?;
            Ok(Outcome { text, again: 1 })
        }
        Err(fault) => Err(Fault::from(fault)),
    }
}
