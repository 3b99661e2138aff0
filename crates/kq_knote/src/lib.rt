//! The knotes of one kqueue.
#![tactic(auto)]

mod arming;
mod changes;
mod due;
mod expiring;
mod gathered;
mod hinted;
mod knote;
mod knotes;
mod queue;
mod tally;
mod timers;

pub use hinted::only_target;
pub use knote::Knote;
pub use knotes::Knotes;
pub use tally::Tally;
