//! The text of a trace, read with exact faults.
#![tactic(auto)]

mod batches;
mod block_part;
mod blocks;
mod change;
mod changes;
mod chunk;
mod decoders;
mod decoding;
mod event;
mod fault;
mod header;
mod input_error;
mod line;
mod lone_line;
mod member;
mod names;
mod part;
mod pieces;
mod read;
mod reading;
mod record;
mod shape;
mod sink;
mod source;
mod trace_reader;
mod values;

pub use changes::{change_list, is_change_list};
pub use decoders::Decoders;
pub use fault::TraceError;
pub use input_error::InputError;
pub use kq_spell::write_trace;
pub use line::first_line;
pub use lone_line::{record_on, version_on};
pub use member::{is_whole, is_whole_at, u32_in, u64_at, width};
pub use read::{read_trace, read_trace_by_values, read_trace_with};
pub use reading::read_trace_into;
pub use sink::{Kept, Sink};
pub use source::{Input, Lent, ReadFault, Source};
pub use trace_reader::TraceReader;
pub use values::line_value;
