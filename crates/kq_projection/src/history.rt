//! What was seen of the world at every place of a trace, and what the trace says to each kqueue: so
//! that each kqueue can be replayed alone.

mod at;
mod item;
mod kqueues;
mod message_index;
mod message_log;
mod plain;
mod posting_lists;
mod private;
mod record_subjects;
mod seen;
mod sources;
mod split;
mod splitting;
mod timeline;
mod timelines;
mod touched;
mod trace_messages;
mod tracking;

pub use at::HistoryAt;
pub use item::{Item, What};
pub use private::Private;
pub use split::Split;
