//! What the filters of kqueue(2) see and hear: each filter's look at its target.
#![tactic(auto)]

mod filter;
mod hearing;
mod level;
mod nothing;
mod seen;
mod told;

pub use filter::{look, look_alone, look_user, notice_or};
pub use hearing::{Heard, hear, takes};
pub use nothing::NothingThere;
pub use seen::Seen;
