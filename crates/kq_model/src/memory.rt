//! The error that there is no memory, and the allocators' errors that turn into it.

use std::alloc::{AllocError, AllocFailed};

/// A growth was refused: there is no memory left for it.
#[derive(Debug, Drop, Clone, Copy, PartialEq, Eq)]
pub struct Memory;

impl From<AllocError> for Memory {
    fn from(_error: AllocError) -> Memory {
        Memory
    }
}

impl<T: Drop> From<AllocFailed<T>> for Memory {
    fn from(_failed: AllocFailed<T>) -> Memory {
        Memory
    }
}
