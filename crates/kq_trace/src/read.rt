//! A whole trace, line by line.

ghost use Rattle.std.specs.Prelude.{◌≡◌, IfErr, IfOk};
ghost use Rattle.kq_model.specs.Reading.{Good, reading};
ghost use Rattle.kq_trace.specs.Faults.{IsFault, IsLeastFault};

use crate::TraceError;
use crate::decoding::Readers;
use crate::input_error::InputError;
use crate::reading::read_trace_into;
use crate::sink::Kept;
use crate::source::Lent;
use crate::trace_reader::TraceReader;
use kq_model::{Memory, Series, Trace};
use std::sync::Wait;
use std::thread::Threads;

/// Reads the text of a trace. On `Bad` the line is the first that has a fault, counted from 1, and
/// its fault is the first of [`LineFault`]'s that it has; `Memory` says nothing of the text.
///
/// A line feed ends a line, one at the end of the text adds none, and empty text is one empty line.
/// The format is this project's own, and a line's value is what `serde_json` reads. `rt` gives the
/// memory for the trace, and the threads that decode its lines; a thread that does not start is no error.
pub fn read_trace<R: AllocGlobal + Threads + Wait + Sync>(
    rt: &R,
    bytes: &[u8],
) -> Result<Trace, TraceError>
    ensures good { IfOk result (λ trace. reading bytes.now ≡ Good trace.version trace.events) }
    ensures bad { IfErr result (IsFault bytes.now) }
    ensures least { IfErr result (IsLeastFault bytes.now) }
{
    read_trace_with(rt, bytes, u32::MAX)
}

/// Reads the text of a trace as [`read_trace`] does, by at most so many threads, of which the calling one is the first,
/// and one more where there are two or more; 0 and 1 start none.
pub fn read_trace_with<R: AllocGlobal + Threads + Wait + Sync>(
    rt: &R,
    bytes: &[u8],
    threads: u32,
) -> Result<Trace, TraceError>
    ensures good { IfOk result (λ trace. reading bytes.now ≡ Good trace.version trace.events) }
    ensures bad { IfErr result (IsFault bytes.now) }
    ensures least { IfErr result (IsLeastFault bytes.now) }
{
    let mut kept = Kept::new(rt.alloc());
    match read_trace_into(rt, &mut Lent::new(bytes), threads, &mut kept) {
        Ok(version) => Ok(Trace {
            version,
            events: Series::from_vec(kept.into_events()),
        }),
        Err(InputError::Trace(error)) => Err(error),
        Err(InputError::Read) => unreachable!(),
    }
}

/// Reads what [`read_trace`] reads, each line by way of a JSON value, one after the other: slower, and what the typed
/// pass is held against.
pub fn read_trace_by_values<R: AllocGlobal>(rt: &R, bytes: &[u8]) -> Result<Trace, TraceError>
    ensures good { IfOk result (λ trace. reading bytes.now ≡ Good trace.version trace.events) }
    ensures bad { IfErr result (IsFault bytes.now) }
{
    let alloc = rt.alloc();
    let mut reader = TraceReader::by(alloc, bytes, Readers::ValuesAlone)?;
    let mut events = Vec::new(alloc);
    'records: while let Some(event) = reader.next_event()? {
        events.push(event).map_err(|_| Memory)?;
    }
    Ok(Trace {
        version: reader.version(),
        events: Series::from_vec(events),
    })
}
