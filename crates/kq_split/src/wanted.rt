//! What is asked of a trace.

/// What is asked of a trace. A kqueue is named by the place of the record that made it.
#[derive(Debug, Drop, Clone, Copy, PartialEq, Eq)]
pub enum Wanted {
    /// The kqueues that it makes.
    Kqueues,
    /// The private list of a kqueue.
    Items { kqueue: u64 },
    /// The rows that a kqueue gives alone, from its private list.
    Rows { kqueue: u64 },
}
