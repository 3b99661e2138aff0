//! One thing that is due, and when; the earlier of two is the lesser.

/// What is due, by its ident, and the moment at which it is, in nanoseconds.
// Derived comparisons go by the moment first.
#[derive(Debug, Drop, Clone, Copy, PartialEq, Eq, PartialOrd, Ord)]
pub struct Alarm {
    pub moment: u64,
    pub ident: u64,
}
