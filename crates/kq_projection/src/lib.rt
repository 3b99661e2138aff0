//! Each kqueue of a trace alone: what the trace says to it, what was seen of the world at the places of that, and the
//! rows to which it replays.
#![tactic(auto)]

mod alone;
mod history;

pub use alone::{Replay, replay_all, replay_all_with};
pub use history::{HistoryAt, Item, Private, Split, What};
pub use kq_jobs::RunFault;
pub use kq_model::Rows;
