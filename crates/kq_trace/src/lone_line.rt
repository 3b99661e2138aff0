//! A line by itself, for who has one line after the other and no text.

ghost use Rattle.std.specs.Prelude.{◌≡◌, ◌≤◌, IfOk, OnOk};
ghost use Rattle.kq_model.specs.Limits.{IsVersion};
ghost use Rattle.kq_model.specs.Reading.{record_on, version_on};

use crate::decoding::Readers;
use crate::header::version_on_line;
use crate::trace_reader::event_on_line;
use kq_line::LineReader;
use kq_model::limits::MOST_LINE_BYTES;
use kq_model::{Event, LineFault, Memory};
use std::alloc::Global;

/// The version that a line names as the header of a trace, 1 or 2, or the fault of that line: `TooLong` or `Header`.
pub fn version_on(alloc: Global, line: &[u8]) -> Result<Result<u32, LineFault>, Memory>
    ensures version { IfOk result (λ version. version_on line.now ≡ version) }
    ensures known { IfOk result (λ version. IfOk version IsVersion) }
{
    if line.len() > MOST_LINE_BYTES {
        return Ok(Err(LineFault::TooLong));
    }
    match version_on_line(alloc, line)? {
        Some(version) => Ok(Ok(version)),
        None => Ok(Err(LineFault::Header)),
    }
}

/// The record on a line without its line feed, were it the line of this number, or its fault. Lines count from 1, the
/// header's; a line behind those of 1,000,000 records is `TooManyRecords`, if it is not `TooLong`.
pub fn record_on(
    alloc: Global,
    number: u64,
    line: &[u8],
) -> Result<Result<Event, LineFault>, Memory>
    ensures record { IfOk result (λ event. record_on number line.now ≡ event) }
    ensures limit { IfOk result (λ event. OnOk event (number ≤ 1000001)) }
{
    let mut reader = LineReader::new(alloc);
    event_on_line(alloc, number, line, Readers::TypedFirst, &mut reader)
}
