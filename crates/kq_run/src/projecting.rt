//! The rows of a trace, each of whose kqueues is replayed alone.

ghost use Rattle.std.specs.Prelude.{◌≡◌, IfErr, IfOk};
ghost use Rattle.kq_model.specs.System.{rows};
ghost use Rattle.kq_run.specs.Replay.{IsReplayFault};
ghost use Rattle.kq_run.specs.Workers.{IsWorkerCount};

use crate::fault::Fault;
use kq_merge::merge;
use kq_model::{Row, Trace};
use kq_projection::{RunFault, Split, replay_all_with};
use kq_threads::{Gate, Starts};
use std::sync::Wait;
use std::thread::Threads;

/// The rows of a trace, each of whose kqueues is replayed alone from its own short list, by so many workers, 1 to 256.
/// The gate is asked before each kqueue is replayed, and `starts` before each worker but the first is started.
pub fn rows_of<R: AllocGlobal + Threads + Wait + Sync, G: Gate + Sync, S: Starts>(
    rt: &R,
    trace: &Trace,
    workers: u32,
    gate: &G,
    starts: &S,
) -> Result<Vec<Row>, Fault>
    requires { IsWorkerCount workers }
    ensures rows { IfOk result (λ rs. rs.items ≡ rows trace.now.version trace.now.events) }
    ensures fault { IfErr result (IsReplayFault trace.now.version trace.now.events workers) }
{
    let split = Split::of(rt.alloc(), trace)?;
    rows_of_split(rt, &split, workers, gate, starts)
}

/// The rows of a trace that was split, each of whose kqueues is replayed alone.
fn rows_of_split<R: AllocGlobal + Threads + Wait + Sync, G: Gate + Sync, S: Starts>(
    rt: &R,
    split: &Split,
    workers: u32,
    gate: &G,
    starts: &S,
) -> Result<Vec<Row>, Fault>
    requires { IsWorkerCount workers }
    ensures rows { IfOk result (λ rs. rs.items ≡ rows split.now.version split.now.events) }
    ensures fault { IfErr result (IsReplayFault split.now.version split.now.events workers) }
{
    let kqueues = match replay_all_with(rt, split, workers, gate, starts) {
        Ok(kqueues) => kqueues,
        Err(RunFault::Workers) => return Err(Fault::Usage),
        Err(RunFault::Memory) => return Err(Fault::Memory),
        Err(RunFault::Spawn) => return Err(Fault::Spawn),
    };
    Ok(merge(rt.alloc(), kqueues, split.plain_rows())?)
}
