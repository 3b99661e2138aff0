//! The parts of a replay.

use crate::watch::Watch;
use anyhow::Context;
use kq_merge::{merge, report_text};
use kq_model::{Row, Trace};
use kq_projection::{Split, replay_all};
use kq_threads::Open;
use kq_trace::read_trace_with;
use std::alloc::AllocError;
use std::io::Write;
use std::sync::Wait;
use std::thread::Threads;
use std::time::{Clock, CpuClock};

/// Reads the trace, splits it, replays each of its kqueues alone by so many workers, puts their rows in order and
/// writes the report.
pub fn parts<R: AllocGlobal + Clock + CpuClock + Threads + Wait + Sync, O: Write, W: Write>(
    rt: &R,
    bytes: &[u8],
    workers: u32,
    out: &mut O,
    times: &mut W,
) -> anyhow::Result<()> {
    let mut watch = Watch::start(rt)?;
    let trace = read_trace_with(rt, bytes, workers)?;
    of_trace(rt, &trace, workers, &mut watch, out, times)
}

/// The parts behind the reading.
fn of_trace<R: AllocGlobal + Clock + CpuClock + Threads + Wait + Sync, O: Write, W: Write>(
    rt: &R,
    trace: &Trace,
    workers: u32,
    watch: &mut Watch,
    out: &mut O,
    times: &mut W,
) -> anyhow::Result<()> {
    watch.lap(rt, "read", times)?;
    let split = Split::of(rt.alloc(), trace).map_err(|_| AllocError)?;
    of_split(rt, &split, workers, watch, out, times)
}

/// The parts behind the splitting.
fn of_split<R: AllocGlobal + Clock + CpuClock + Threads + Wait + Sync, O: Write, W: Write>(
    rt: &R,
    split: &Split<'_>,
    workers: u32,
    watch: &mut Watch,
    out: &mut O,
    times: &mut W,
) -> anyhow::Result<()> {
    watch.lap(rt, "split", times)?;
    let kqueues = replay_all(rt, split, workers, &Open)?;
    watch.lap(rt, "replay", times)?;
    let rows = merge(rt.alloc(), kqueues, split.plain_rows()).map_err(|_| AllocError)?;
    of_rows(rt, rows.as_slice(), split.record_count(), watch, out, times)
}

/// The parts behind the merging.
fn of_rows<R: AllocGlobal + Clock + CpuClock, O: Write, W: Write>(
    rt: &R,
    rows: &[Row],
    records: u64,
    watch: &mut Watch,
    out: &mut O,
    times: &mut W,
) -> anyhow::Result<()> {
    watch.lap(rt, "merge", times)?;
    let report = report_text(rt.alloc(), rows, records).map_err(|_| AllocError)?;
    out.write_all(report.as_slice())?;
    watch.lap(rt, "write", times)?;
    Ok(())
}
