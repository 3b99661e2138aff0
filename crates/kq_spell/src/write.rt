//! The canonical text of a trace.

ghost use Rattle.std.specs.Prelude.{◌≡◌, IfOk};
ghost use Rattle.kq_model.specs.Reading.{Good, reading};
ghost use Rattle.kq_model.specs.Spelling.{spelling};
ghost use Rattle.kq_spell.specs.Again.{CanBeReadAgain};

use crate::record_line::put_record;
use crate::spell::put_header;
use kq_model::{Memory, Trace};
use std::alloc::Global;

/// The canonical text of a trace: the header, then each record as compact JSON with all its members,
/// in the order of their names' bytes, each line ended by a line feed.
///
/// Reading the text gives the trace again if the trace has at most 1,000,000 records, no line of its
/// text is longer than 2^20 bytes, each bit of its flags has a name, and no moment of the clock is below 0.
pub fn write_trace(alloc: Global, trace: &Trace) -> Result<Vec<u8>, Memory>
    ensures text { IfOk result (λ text. text.items ≡ spelling trace.now.version trace.now.events) }
    ensures read_again { IfOk result
        (λ text. CanBeReadAgain trace.now.events → reading text.items ≡ Good trace.now.version trace.now.events) }
{
    let mut text = Vec::new(alloc);
    put_header(&mut text, trace.version)?;
    for event in trace.events.as_slice() {
        put_record(&mut text, event)?;
    }
    Ok(text)
}
