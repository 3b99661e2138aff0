//! One fold of the whole system, on the calling thread.

ghost use Rattle.std.specs.Prelude.{◌≡◌, IfOk};
ghost use Rattle.kq_model.specs.Report.{report_of};

use crate::watch::Watch;
use kq_merge::report_text;
use kq_model::{Memory, Trace};
use kq_system::System;
use kq_trace::read_trace_with;
use std::alloc::{AllocError, Global};
use std::io::Write;
use std::sync::Wait;
use std::thread::Threads;
use std::time::{Clock, CpuClock};

/// Reads the trace, folds the system over it, and writes its report.
pub fn fold<R: AllocGlobal + Clock + CpuClock + Threads + Wait + Sync, O: Write, W: Write>(
    rt: &R,
    bytes: &[u8],
    out: &mut O,
    times: &mut W,
) -> anyhow::Result<()> {
    let mut watch = Watch::start(rt)?;
    let trace = read_trace_with(rt, bytes, 1)?;
    let report = folded(rt.alloc(), &trace).map_err(|_| AllocError)?;
    watch.lap(rt, "fold", times)?;
    out.write_all(report.as_slice())?;
    Ok(())
}

/// The report of a trace.
#[tactic(auto, unfolding(kq_model::specs::Report::report_of))]
fn folded(alloc: Global, trace: &Trace) -> Result<Vec<u8>, Memory>
    ensures { IfOk result (λ text. text.items ≡ report_of trace.now.version trace.now.events) }
{
    let rows = System::run(alloc, trace)?;
    report_text(alloc, rows.as_slice(), trace.events.len() as u64)
}
