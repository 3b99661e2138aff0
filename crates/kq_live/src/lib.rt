//! The simulated system under a lock: many threads call it, and one history has all their calls.
//!
//! A [`Live`] is made with seats. A thread needs a seat of its own to call it; seats split and join. At the end
//! the live system closes into a [`Book`]: one legal order of all calls with their replies, which replays to the
//! same replies. [`live_run`] does the whole for a trace and a number of threads.
#![tactic(auto)]

mod book;
mod live;
mod machine;
mod run;
mod spare;

pub use book::Book;
pub use live::{Live, LiveError, LiveReceipt, LiveSeat, MOST_CALLS};
pub use machine::LiveMachine;
pub use run::live_run;
