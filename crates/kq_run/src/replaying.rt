//! The report of a trace, by any number of workers.

ghost use Rattle.std.specs.Prelude.{◌↔◌, IfErr, IfOk, IsErrOf, OnOk};
ghost use Rattle.kq_run.specs.Replay.{IsFault, IsFirstReport, IsInputFault, IsReport, IsReportFrom, IsReportIn, IsSourceFault};
ghost use Rattle.kq_run.specs.Workers.{IsWorkerCount};
ghost use Rattle.kq_run.specs.Written.{Leaves, Writes};

use crate::fault::Fault;
use crate::folding::fold_alone;
use crate::output::write_chunks;
use crate::projecting::rows_of;
use crate::sharing::fold_by_shares;
use crate::workers::is_worker_count;
use kq_merge::{TextChunks, report_text};
use kq_threads::{Gate, Starts};
use kq_trace::{Input, Lent, Source, read_trace_with};
use std::io::{Read, Write};
use std::sync::Wait;
use std::thread::Threads;

/// The report of the trace that the bytes are, replayed by so many workers, 1 to 256; any other
/// number is [`Fault::Usage`], before all else.
///
/// For every trace and every number of workers, the report is byte for byte the report of one fold
/// of the whole system over the trace on one thread; where memory or a thread is refused, there is
/// an error and no report.
///
/// By several workers the kqueues are dealt to shares, which are folded at the same time. Memory: a thread that reads
/// or writes lines was not started, too. Spawn: one that folds was not.
pub fn replay<R: AllocGlobal + Threads + Wait + Sync>(
    rt: &R,
    bytes: &[u8],
    workers: u32,
) -> Result<Vec<u8>, Fault>
    ensures workers { IsErrOf result Fault.Usage ↔ ¬ IsWorkerCount workers }
    ensures report { IfOk result (λ text. IsReport bytes.now text.items) }

    // A trace of version 1 has the report that it had while the format had no other version.
    ensures version_one { IfOk result (λ text. IsFirstReport bytes.now text.items) }
    ensures fault { IfErr result (IsFault bytes.now workers) }
{
    if !is_worker_count(workers) {
        return Err(Fault::Usage);
    }
    let text = fold_from(rt, &mut Lent::new(bytes), workers)?;
    Ok(text.joined()?)
}

/// The report of the trace that a source has.
fn fold_from<R: AllocGlobal + Threads + Wait + Sync, I: Source + Send>(
    rt: &R,
    source: &mut I,
    workers: u32,
) -> Result<TextChunks, Fault>
    ensures report { IfOk result (λ text. IsReportFrom (I.ahead source.old) text) }
    ensures fault { IfErr result (IsSourceFault I.may_fail (I.ahead source.old) workers) }
{
    if workers < 2 {
        fold_alone(rt, source)
    } else {
        fold_by_shares(rt, source, workers)
    }
}

/// The report that [`replay`] gives, where each kqueue is replayed alone: the gate is asked before each of them, with
/// the number of the worker and that of the kqueue in order of birth, both from 1 on, and `starts` before each worker
/// but the first is started.
pub fn replay_with<R: AllocGlobal + Threads + Wait + Sync, G: Gate + Sync, S: Starts>(
    rt: &R,
    bytes: &[u8],
    workers: u32,
    gate: &G,
    starts: &S,
) -> Result<Vec<u8>, Fault>
    ensures workers { IsErrOf result Fault.Usage ↔ ¬ IsWorkerCount workers }
    ensures report { IfOk result (λ text. IsReport bytes.now text.items) }
    ensures fault { IfErr result (IsFault bytes.now workers) }
{
    if !is_worker_count(workers) {
        return Err(Fault::Usage);
    }
    let trace = read_trace_with(rt, bytes, workers)?;
    let rows = rows_of(rt, &trace, workers, gate, starts)?;
    let records = trace.events.len() as u64;
    Ok(report_text(rt.alloc(), rows.as_slice(), records)?)
}

/// Writes the report of the trace that an input has, which is no more bytes than so many, as [`replay`] gives it, by so
/// many workers, 1 to 256. It is read while it comes. A read that fails, an interrupted one too, and an input of more
/// bytes are [`Fault::Read`], whatever the trace.
///
/// After [`Fault::Write`] a prefix of the report was written, after any other fault nothing.
pub fn replay_input<R: AllocGlobal + Threads + Wait + Sync, I: Read + Send, O: Write>(
    rt: &R,
    input: &mut I,
    limit: usize,
    workers: u32,
    out: &mut O,
) -> Result<(), Fault>
    requires { IsWorkerCount workers }
    ensures whole { OnOk result
        (Writes (IsReportIn (I.remaining input.old) limit) (O.contents out.old) (O.contents out.new)) }
    ensures fault { IfErr result (λ f.
        Leaves (IsReportIn (I.remaining input.old) limit) (IsInputFault (I.remaining input.old) limit workers) f
        (O.contents out.old) (O.contents out.new)) }
{
    let text = fold_from(rt, &mut Input::new(input, limit), workers)?;
    write_chunks(&text, out)
}
