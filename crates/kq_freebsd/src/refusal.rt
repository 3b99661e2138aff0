//! The three causes for which a call does nothing: memory, an argument, or a full system.

/// Why a call of the library did nothing.
#[derive(Debug, Drop, Clone, Copy, PartialEq, Eq)]
pub enum Refusal {
    /// There is no memory left for it.
    Memory,
    /// An argument is none that the call takes: a version, a filter, a flag, a side, a mode or a note.
    Argument,
    /// The system has taken 2^31 - 2 records, and takes no more.
    Full,
}
