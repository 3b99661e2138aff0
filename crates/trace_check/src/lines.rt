//! The lines of a text, one by one.

use kq_line::LineReader;
use kq_trace::{TraceError, read_trace, read_trace_by_values, write_trace};
use std::alloc::{AllocError, Global};
use std::sync::Wait;
use std::thread::Threads;

/// The header of a trace, with its line feed.
const HEADER: &[u8] = b"{\"kqsim\":1}\n";

/// Whether the lines are tried by the typed pass first, or read as JSON values alone.
#[derive(Drop, Clone, Copy)]
pub enum Readers {
    TypedFirst,
    ValuesAlone,
}

/// How many of the lines behind the first the typed pass does not take.
pub fn fallbacks(alloc: Global, bytes: &[u8]) -> u64 {
    let mut reader = LineReader::new(alloc);
    let mut count = 0u64;
    for (place, line) in bytes.split(|byte| *byte == b'\n').enumerate() {
        if place > 0 && !line.is_empty() && reader.event_on(line).is_none() {
            count = count.saturating_add(1);
        }
    }
    count
}

/// What each line is read as, as the one record of a trace: the canonical text of that trace, or its fault.
pub fn each_line<R: AllocGlobal + Threads + Wait + Sync>(
    rt: &R,
    bytes: &[u8],
    readers: Readers,
) -> Result<Vec<u8>, AllocError> {
    let mut out = Vec::new(rt.alloc());
    for line in bytes.split(|byte| *byte == b'\n') {
        let mut text = Vec::from_slice(rt.alloc(), HEADER)?;
        text.extend_from_slice(line)?;
        let read = match readers {
            Readers::TypedFirst => read_trace(rt, text.as_slice()),
            Readers::ValuesAlone => read_trace_by_values(rt, text.as_slice()),
        };
        match read {
            Ok(trace) => {
                let again = write_trace(rt.alloc(), &trace).map_err(|_| AllocError)?;
                out.extend_from_slice(again.as_slice())?;
            }
            Err(TraceError::Memory) => return Err(AllocError),
            Err(error @ TraceError::Bad { .. }) => {
                let said = format!(in rt.alloc(); "{error}\n")?;
                out.extend_from_slice(said.as_bytes())?;
            }
        }
    }
    Ok(out)
}
