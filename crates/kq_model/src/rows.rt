//! The answers of one kqueue, which is known by the place of its birth.

use crate::{Row, Series};

/// The rows of one kqueue.
#[derive(Drop)]
pub struct Rows {
    /// The place of the record that made the kqueue.
    pub kqueue: u64,
    /// By rising place.
    pub rows: Series<Row>,
}
