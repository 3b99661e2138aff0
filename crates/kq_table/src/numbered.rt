//! A row's number with its slot, so that rows are sorted and still found.

use crate::placed::Place;

/// The number of a row in the order of attachment, and the slot where it stands.
#[derive(Debug, Drop, Clone, Copy)]
pub struct Birth {
    pub(crate) born: u64,
    pub(crate) slot: usize,
}

impl Birth {
    /// The place of the row.
    pub fn place(self) -> Place {
        Place { slot: self.slot }
    }
}
