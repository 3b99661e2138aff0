//! What is kept of one process: exit status, open descriptors and ignored signals.

use crate::descriptors::Descriptors;
use crate::ignored::Ignored;

/// A process, also once it has exited.
#[derive(Drop)]
pub struct Process {
    /// The exit status, once it has exited.
    pub exited: Option<u32>,
    /// What its open descriptors name.
    pub descriptors: Descriptors,
    // Large, and seldom asked for.
    pub ignored: Ignored,
}
