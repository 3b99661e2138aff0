//! The lines of an input, one after the other, in a room of fixed size.
#![tactic(auto)]

mod arrived;
mod lines;

pub use lines::{Lines, LinesError, MOST_KEPT_BYTES};
