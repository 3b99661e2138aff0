//! One thing that a record says to kqueues, and the source that it comes from.

ghost use Rattle.std.specs.Prelude.{◌≡◌};

use kq_model::{Hint, Target};

/// One thing that a possible record says to kqueues.
#[derive(Debug, Drop, Clone, Copy, PartialEq, Eq)]
pub enum What {
    /// A descriptor was closed.
    Closed { pid: u32, number: u32 },
    /// A hint for the knotes of a target.
    Told { target: Target, hint: Hint },
    /// The clock goes on, in ns.
    Clocked { from: u64, to: u64 },
    /// A call of the kqueue that was made at this place; the record has its changes and its room.
    Called { kqueue: u64 },
}

/// What the record of a place says.
#[derive(Debug, Drop, Clone, Copy, PartialEq, Eq)]
pub struct Item {
    pub place: u64,
    pub what: What,
}

/// What an item comes from. A kqueue is concerned by the items of the sources that its changes
/// name, and by its own calls.
#[derive(Debug, Drop, Clone, Copy, PartialEq, Eq, Hash)]
pub enum Source {
    /// A number of a process, as an ident of its changes.
    Number { pid: u32, number: u64 },
    Of(Target),
    Clock,
    Kqueue(u64),
}

impl What {
    ghost use Rattle.kq_projection.specs.Items.{source_of};

    pub(crate) fn source(self) -> Source
        ensures { result ≡ source_of self }
    {
        match self {
            What::Closed { pid, number } => Source::Number {
                pid,
                number: u64::from(number),
            },
            What::Told { target, .. } => Source::Of(target),
            What::Clocked { .. } => Source::Clock,
            What::Called { kqueue } => Source::Kqueue(kqueue),
        }
    }
}
