//! A trace that many threads run.
ghost use Rattle.std.specs.Prelude.{◌≤◌, IfErr, IfOk};
ghost use Rattle.kq_live.specs.Recorded.{IsRun};
ghost use Rattle.kq_serve.specs.Faults.{IsServeFault};

use crate::book::Book;
use crate::machine::LiveMachine;
use kq_model::Trace;
use kq_serve::{ServeError, serve};
use kq_threads::{Gate, Starts};
use std::alloc::Global;
use std::sync::Wait;
use std::thread::Threads;

/// Runs the trace on one live system by so many threads, 1 to 64. Thread t among n makes the calls of the events
/// whose pid leaves t when divided by n, in their order, and thread 0 those without a pid too; the calling thread is
/// thread 0. The gate is asked before each call, and `starts` before each thread.
#[tactic(auto, using(crate::proofs::Telling::run_is))]
pub fn live_run<R: Threads + Wait + Sync, G: Gate + Sync, S: Starts>(
    rt: &R,
    alloc: Global,
    gate: &G,
    starts: &S,
    trace: &Trace,
    threads: u32,
) -> Result<Book, ServeError>
    requires { (1 ≤ threads) × (threads ≤ 64) }
    ensures book { IfOk result (λ b. IsRun trace.now.version threads trace.now.events b) }
    // Busy never, and Spawn only where there is a thread to be started.
    ensures err { IfErr result (IsServeFault threads) }
{
    let machine = LiveMachine::new(alloc, trace.version)?;
    let events = trace.events.as_slice();
    let (_, entries) = serve(rt, alloc, gate, starts, machine, events, threads)?;
    Ok(Book::new(trace.version, entries))
}
