//! What a whole trace says to kqueues: the log of its items, and the kqueues that it makes.

use crate::history::kqueues::Kqueues;
use crate::history::message_index::MessageIndex;

/// What the records of a trace say to kqueues.
#[derive(Drop)]
pub struct TraceMessages {
    pub(crate) log: MessageIndex,
    pub(crate) kqueues: Kqueues,
}
