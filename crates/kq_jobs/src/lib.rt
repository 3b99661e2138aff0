//! Jobs that many workers run. The jobs are told apart by their number, and a worker draws the number of its next
//! job from a counter, so that each is handed out once.
#![tactic(auto)]

mod collector;
mod counter;
mod fault;
mod jobs;
mod plays;
mod rule;
mod running;
mod seat;
mod view;
mod worker;

pub use counter::ClaimCounter;
pub use fault::RunFault;
pub use jobs::Jobs;
pub use running::{MOST_WORKERS, run_all};
pub use seat::ClaimSeat;
