//! What the program does: the report of a trace, by any number of workers, and a trace on one live system.
#![tactic(auto)]

mod fault;
mod fold;
mod folding;
mod input;
mod lines;
mod living;
mod output;
mod projecting;
mod replaying;
mod row_sink;
mod shared_fold;
mod sharing;
mod workers;

pub use fault::Fault;
pub use input::read_in;
pub use living::{book_text, live_report, live_run, live_run_with};
pub use output::write_out;
pub use replaying::{replay, replay_input, replay_with};
pub use workers::{MOST_THREADS, MOST_WORKERS, is_thread_count, is_worker_count};
