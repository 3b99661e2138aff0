//! What the threads of several crates need: a gate that holds them, what refuses their starts, and two calls at once.
#![tactic(auto)]

mod gate;
mod joining;
mod task;

pub use gate::{Always, Gate, Open, Starts};
pub use joining::{Joined, join, join_mut};
