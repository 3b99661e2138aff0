//! The canonical text of a trace, which gives the trace again when it is read.
#![tactic(auto)]

mod members;
mod record_line;
mod spell;
mod write;

pub use record_line::put_record;
pub use spell::put_header;
pub use write::write_trace;
