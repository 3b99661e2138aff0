//! Lines decoded together, up to the first bad one.

ghost use Rattle.std.specs.Prelude.{◌+◌, ◌≤◌, IfErr, IfOk, length};
ghost use Rattle.kq_model.specs.Limits.{most_records};
ghost use Rattle.kq_trace.specs.Batches.{AreRecords, IsFaultAmong, IsReadAs};
ghost use Rattle.kq_trace.specs.Rest.{texts};

use crate::TraceError;
use crate::decoding::{Readers, event_on};
use kq_line::LineReader;
use kq_model::{Event, LineFault, Memory};
use std::alloc::Global;

/// What the lines of a batch are.
#[derive(Drop)]
pub enum Batch {
    /// A record on each line.
    Records(Vec<Event>),
    /// The first bad line, counted from 0 in the batch, and its fault.
    Bad { place: u64, fault: LineFault },
    /// Memory was refused, which says nothing of the lines.
    Memory,
}

/// Decodes the lines of a batch up to the first bad one.
pub fn batch_of(alloc: Global, lines: &[&[u8]]) -> Batch
    ensures { IsReadAs (texts lines.now) result }
{
    let mut reader = LineReader::new(alloc);
    let Ok(mut events) = Vec::with_capacity(alloc, lines.len()) else {
        return Batch::Memory;
    };
    for line in lines {
        match event_on(alloc, line, Readers::TypedFirst, &mut reader) {
            Ok(Ok(event)) => {
                let Ok(()) = events.push(event) else {
                    return Batch::Memory;
                };
            }
            Ok(Err(fault)) => {
                return Batch::Bad {
                    place: events.len() as u64,
                    fault,
                };
            }
            Err(Memory) => return Batch::Memory,
        }
    }
    Batch::Records(events)
}

/// The records on these lines, decoded on the calling thread as one batch, which is not copied, or the first bad one of
/// them, where they are numbered from `first`.
pub fn events_alone(alloc: Global, first: u64, lines: &[&[u8]]) -> Result<Vec<Event>, TraceError>
    requires { first + length lines.now ≤ 2 + most_records }
    ensures good { IfOk result (λ events. AreRecords first (texts lines.now) events.items) }
    ensures bad { IfErr result (IsFaultAmong first (texts lines.now)) }
{
    match batch_of(alloc, lines) {
        Batch::Records(events) => Ok(events),
        Batch::Bad { place, fault } => Err(TraceError::Bad {
            line: first + place,
            fault,
        }),
        Batch::Memory => Err(TraceError::Memory),
    }
}
