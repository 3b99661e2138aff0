//! What a line behind the header is, wherever it stands.

ghost use Rattle.std.specs.Prelude.{◌≡◌, ◌+◌, ◌<◌, ◌≤◌, ℕ, Err, IfOk, IfSome, Ok};
ghost use Rattle.kq_model.specs.Limits.{most_records};
ghost use Rattle.kq_model.specs.Reading.{event_of, json_of, record_on};

use crate::record::event_of;
use crate::values::line_value;
use kq_line::LineReader;
use kq_model::limits::MOST_LINE_BYTES;
use kq_model::{Event, LineFault, Memory};
use std::alloc::Global;

/// What reads a line behind the header.
#[derive(Drop, Clone, Copy)]
pub enum Readers {
    /// The typed pass, and what that does not know a JSON value.
    TypedFirst,
    /// A JSON value alone.
    ValuesAlone,
}

/// The record on a line, where the typed pass is asked and knows it.
#[inline(always)]
fn typed_event<'a>(readers: Readers, reader: &mut LineReader<'a>, line: &'a [u8]) -> Option<Event>
    ensures { IfSome result (λ event. event_of (json_of line.now) ≡ Ok event) }
{
    match readers {
        Readers::TypedFirst => reader.event_on(line),
        Readers::ValuesAlone => None,
    }
}

/// The record on a line that stands among those that may be records, or the fault of that line. What the typed
/// pass does not know is read as a JSON value, which alone finds faults.
#[tactic(auto, unfolding(kq_model::specs::Reading::event_of))]
pub fn event_on<'a>(
    alloc: Global,
    line: &'a [u8],
    readers: Readers,
    reader: &mut LineReader<'a>,
) -> Result<Result<Event, LineFault>, Memory>
    ensures { IfOk result (λ event. (number : ℕ) → number ≤ 1 + most_records
        → record_on number line.now ≡ event) }
{
    if line.len() > MOST_LINE_BYTES {
        return Ok(Err(LineFault::TooLong));
    }
    if let Some(event) = typed_event(readers, reader, line) {
        return Ok(Ok(event));
    }
    match line_value(alloc, line)? {
        Some(value) => event_of(alloc, &value),
        None => Ok(Err(LineFault::Json)),
    }
}

/// The fault of a line that stands behind those that may be records.
pub fn late_fault(line: &[u8]) -> LineFault
    ensures { (number : ℕ) → 1 + most_records < number → record_on number line.now ≡ Err result }
{
    if line.len() > MOST_LINE_BYTES {
        LineFault::TooLong
    } else {
        LineFault::TooManyRecords
    }
}
