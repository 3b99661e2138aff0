//! A trace on one live system.
ghost use Rattle.std.specs.Prelude.{◌≡◌, ◌↔◌, IfErr, IfOk, IsErrOf, OnOk};
ghost use Rattle.kq_live.specs.Recorded.{IsRun};
ghost use Rattle.kq_run.specs.Living.{IsBookOf, IsBookText, IsLiveFault, IsLiveReport, IsRunFault};
ghost use Rattle.kq_run.specs.Replay.{IsReportOf};
ghost use Rattle.kq_run.specs.Workers.{IsThreadCount};
ghost use Rattle.kq_run.specs.Written.{Leaves, Writes};

use crate::fault::Fault;
use crate::output::write_out;
use crate::workers::is_thread_count;
use kq_live::Book;
use kq_merge::report_text;
use kq_model::{Memory, Trace};
use kq_serve::ServeError;
use kq_threads::{Always, Gate, Open, Starts};
use kq_trace::{read_trace_with, write_trace};
use std::alloc::Global;
use std::io::Write;
use std::sync::Wait;
use std::thread::Threads;

/// Runs the trace on one live system by so many threads, 1 to 64; any other number is [`Fault::Usage`],
/// before all else. The gate is asked before each call, and `starts` before each thread is started.
pub fn live_run_with<R: AllocGlobal + Threads + Wait + Sync, G: Gate + Sync, S: Starts>(
    rt: &R,
    trace: &Trace,
    threads: u32,
    gate: &G,
    starts: &S,
) -> Result<Book, Fault>
    ensures threads { IsErrOf result Fault.Usage ↔ ¬ IsThreadCount threads }
    ensures book { IfOk result (λ b. IsRun trace.now.version threads trace.now.events b) }
    ensures fault { IfErr result (IsRunFault threads) }
{
    if !is_thread_count(threads) {
        return Err(Fault::Usage);
    }
    match kq_live::live_run(rt, rt.alloc(), gate, starts, trace, threads) {
        Ok(book) => Ok(book),
        Err(ServeError::Spawn) => Err(Fault::Spawn),
        Err(ServeError::Call(_)) => Err(Fault::Memory),
    }
}

/// Runs the trace as [`live_run_with`] does, with a gate that holds nobody, where no start is refused beforehand.
pub fn live_run<R: AllocGlobal + Threads + Wait + Sync>(
    rt: &R,
    trace: &Trace,
    threads: u32,
) -> Result<Book, Fault>
    ensures threads { IsErrOf result Fault.Usage ↔ ¬ IsThreadCount threads }
    ensures book { IfOk result (λ b. IsRun trace.now.version threads trace.now.events b) }
    ensures fault { IfErr result (IsRunFault threads) }
{
    live_run_with(rt, trace, threads, &Open, &Always)
}

#[tactic(auto, using(crate::proofs::LiveFaults::run_fault, crate::proofs::LiveFaults::read_fault))]
fn book_of<R: AllocGlobal + Threads + Wait + Sync>(
    rt: &R,
    bytes: &[u8],
    threads: u32,
) -> Result<Book, Fault>
    ensures threads { IsErrOf result Fault.Usage ↔ ¬ IsThreadCount threads }
    ensures book { IfOk result (λ b. IsBookOf bytes.now threads b) }
    ensures fault { IfErr result (IsLiveFault bytes.now threads) }
{
    if !is_thread_count(threads) {
        return Err(Fault::Usage);
    }
    let trace = read_trace_with(rt, bytes, threads)?;
    live_run(rt, &trace, threads)
}

/// Writes the report of a book of the trace that the bytes are, run by so many threads, 1 to 64; any other
/// number is [`Fault::Usage`], before all else.
///
/// After [`Fault::Write`] a prefix of the report was written, after any other fault nothing.
pub fn live_report<R: AllocGlobal + Threads + Wait + Sync, O: Write>(
    rt: &R,
    bytes: &[u8],
    threads: u32,
    out: &mut O,
) -> Result<(), Fault>
    ensures threads { IsErrOf result Fault.Usage ↔ ¬ IsThreadCount threads }
    ensures whole { OnOk result
        (Writes (IsLiveReport bytes.now threads) (O.contents out.old) (O.contents out.new)) }
    ensures fault { IfErr result (λ f.
        Leaves (IsLiveReport bytes.now threads) (IsLiveFault bytes.now threads) f
        (O.contents out.old) (O.contents out.new)) }
{
    let book = book_of(rt, bytes, threads)?;
    let text = report_of(rt.alloc(), &book)?;
    write_out(text.as_slice(), out)
}

/// The report of a book's trace.
fn report_of(alloc: Global, book: &Book) -> Result<Vec<u8>, Memory>
    ensures { IfOk result (λ text. IsReportOf book.now.version book.now.events text.items) }
{
    let rows = book.rows()?;
    report_text(alloc, rows.as_slice(), book.len() as u64)
}

/// The canonical text of the trace of such a book.
pub fn book_text<R: AllocGlobal + Threads + Wait + Sync>(
    rt: &R,
    bytes: &[u8],
    threads: u32,
) -> Result<Vec<u8>, Fault>
    ensures threads { IsErrOf result Fault.Usage ↔ ¬ IsThreadCount threads }
    ensures text { IfOk result (λ text. IsBookText bytes.now threads text.items) }
    ensures fault { IfErr result (IsLiveFault bytes.now threads) }
{
    let book = book_of(rt, bytes, threads)?;
    let trace = book.trace()?;
    Ok(write_trace(rt.alloc(), &trace)?)
}
