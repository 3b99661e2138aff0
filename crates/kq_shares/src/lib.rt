//! Several threads fold one trace together, each its share of the kqueues.
#![tactic(auto)]

mod births;
mod fault;
mod going;
mod shares;
mod starting;

pub use births::{MOST_SHARES, births_in, dealing_for};
pub use fault::ShareFault;
pub use shares::{After, Shares};
