//! The simulated system: processes, their descriptors and their kqueues, one step for each record
//! of a trace, and the rows of a whole trace.
#![tactic(auto)]

mod all_live;
mod asking;
mod beginning;
mod dealing;
mod fold;
mod following;
mod index;
mod kqueues;
mod live;
mod places;
mod renewing;
mod sharing;
mod showing;
mod stepping;
mod system;
mod ticking;
mod watching;

pub use dealing::Dealing;
pub use sharing::Share;
pub use system::System;
