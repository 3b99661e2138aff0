//! Judges a recorded answer of one kevent call: whether some order of the queue gives it, or what is wrong with it
//! first.
#![tactic(auto)]

mod absence;
mod judging;
mod member;
mod verdict;

pub use absence::{Absence, pending_event};
pub use judging::{Fault, Judgement, judge};
pub use member::{Ignored, Member, differing};
pub use verdict::{Outcome, Verdict, keys_looked_at, verdict_of};
