//! Holds the answers that a program recorded against a trace: what they come to.
#![tactic(auto)]

mod answering;
mod became;
mod history;
mod judging;
mod left_open;
mod misplaced;
mod outcome;
mod story;
mod told;
mod verdict;

pub use answering::{events_in_order, key_of};
pub use became::Step;
pub use history::{Followed, History, Moment};
pub use judging::{answer_at, judge_all};
pub use misplaced::first_misplaced;
pub use outcome::Outcome;
pub use story::{Story, call_of, event_at, story_before};
pub use verdict::{Call, Verdict};
