//! Periods of timers, and the moments at which a timer expires. All times are in nanoseconds.
#![tactic(auto)]

mod moment;
mod period;
mod repeating;
mod ticker;
mod timer;
mod timing;

pub use moment::Moment;
pub use period::Period;
pub use ticker::Ticker;
pub use timer::Timer;
pub use timing::Timing;
