//! FreeBSD's numbers of filters, flags, ends and modes, and kevents as C has them (sys/event.h).
#![tactic(auto)]

mod c_kevent;
mod choices;
mod filters;
mod numbers;
mod refusal;

pub use c_kevent::{CKevent, changes_of, hand_out};
pub use choices::{mode_numbered, note_numbered, side_numbered};
pub use filters::{filter_numbered, number_of_filter};
pub use numbers::{number_of, reason_number, refusal_number};
pub use refusal::Refusal;
