//! The records of a block of lines.

ghost use Rattle.std.specs.Prelude.{◌≤◌, IfErr, IfOk};
ghost use Rattle.kq_trace.specs.Rest.{lines_behind};
ghost use Rattle.kq_trace.specs.Unread.{AreRecordsFrom, IsFaultFrom};

use crate::TraceError;
use crate::batches::events_alone;
use crate::decoders::Decoders;
use crate::decoding::late_fault;
use crate::header::FIRST_RECORD_LINE;
use crate::line::{first_line, lines_up_to};
use crate::part::Part;
use crate::pieces::records_in;
use kq_model::limits::MOST_RECORDS;
use std::alloc::Global;
use std::sync::Wait;
use std::thread::Threads;

/// The records on the lines of a block, of which the first has this number. On `Bad` that line is the first that has a
/// fault.
pub fn part_of<R: AllocGlobal + Threads + Wait + Sync>(
    rt: &R,
    number: u64,
    block: &[u8],
    decoders: Decoders,
) -> Result<Part, TraceError>
    requires number { number ≤ 1000002 }
    ensures part { IfOk result (AreRecordsFrom number (lines_behind block.now)) }
    ensures bad { IfErr result (IsFaultFrom number (lines_behind block.now)) }
{
    let alloc = rt.alloc();
    let most = FIRST_RECORD_LINE + MOST_RECORDS - number;
    match records_in(rt, alloc, block, most, decoders)? {
        Some(part) => Ok(part),
        None => part_alone(alloc, number, block),
    }
}

/// The records on the lines of a block, read by the calling thread, one line after the other. `Bad` is as in
/// [`part_of`].
fn part_alone(alloc: Global, number: u64, block: &[u8]) -> Result<Part, TraceError>
    requires number { number ≤ 1000002 }
    ensures part { IfOk result (AreRecordsFrom number (lines_behind block.now)) }
    ensures bad { IfErr result (IsFaultFrom number (lines_behind block.now)) }
{
    let most = FIRST_RECORD_LINE + MOST_RECORDS - number;
    let (lines, behind) = lines_up_to(alloc, block, most)?;
    let events = events_alone(alloc, number, lines.as_slice())?;
    if !behind.is_empty() {
        let (line, _) = first_line(behind);
        return Err(TraceError::Bad {
            line: number + most,
            fault: late_fault(line),
        });
    }
    let mut part = Part::new(alloc);
    part.push(events)?;
    Ok(part)
}
