//! A trace that is applied record by record.
ghost use Rattle.std.specs.Prelude.{◌-◌, ◌^◌, ◌<◌};
ghost use Rattle.kq_model.specs.Limits.{IsVersion};

use crate::Outcome;
use crate::fault::Fault;
use kq_merge::ReportText;
use kq_model::limits::MOST_RECORDS;
use kq_model::{Event, Memory, Reply};
use kq_system::System;
use kq_trace::TraceReader;
use std::alloc::Global;

/// The report of the trace that the bytes are. Each record is applied once more where `Memory` was answered.
pub fn applied(alloc: Global, bytes: &[u8]) -> Result<Outcome, Fault> {
    let mut reader = TraceReader::new(alloc, bytes)?;
    replied(alloc, &mut reader)
}

/// The report of the records that are read.
fn replied(alloc: Global, reader: &mut TraceReader<'_>) -> Result<Outcome, Fault> {
    let mut system = empty_system(alloc, reader.version())?;
    replied_by(alloc, reader, &mut system)
}

/// The system before the first record of a trace of this version, on the heap.
fn empty_system(alloc: Global, version: u32) -> Result<Box<System>, Memory>
    requires { IsVersion version }
{
    let system = System::new(alloc, version)?;
    Ok(Box::new(alloc, system)?)
}

/// The report of the records that are read, by this system.
fn replied_by(
    alloc: Global,
    reader: &mut TraceReader<'_>,
    system: &mut System,
) -> Result<Outcome, Fault> {
    let mut report = ReportText::new(alloc);
    let mut again = 0;
    for _ in 0..MOST_RECORDS {
        let Some(reply) = next_reply(reader, system, &mut again)? else {
            break;
        };
        report = report.with_row(system.applied(), &reply)?;
    }
    let text = report.end(system.applied())?;
    Ok(Outcome { text, again })
}

/// The reply to the next record.
fn next_reply(
    reader: &mut TraceReader<'_>,
    system: &mut System,
    again: &mut u64,
) -> Result<Option<Reply>, Fault> {
    let Some(event) = reader.next_event()? else {
        return Ok(None);
    };
    if system.applied() >= MOST_RECORDS {
        return Ok(None);
    }
    Ok(Some(tried(system, &event, again)?))
}

/// The reply to the event, which is applied once more where `Memory` was answered.
fn tried(system: &mut System, event: &Event, again: &mut u64) -> Result<Reply, Memory>
    requires { system.old.applied < 2 ^ 31 - 1 }
{
    match system.apply(event) {
        Err(Memory) => {
            *again = again.saturating_add(1);
            system.apply(event)
        }
        replied => replied,
    }
}
