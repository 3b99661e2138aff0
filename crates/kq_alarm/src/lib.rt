//! Alarms: moments at which something is due, each with what is due, and the earliest of them.
#![tactic(auto)]

mod alarm;
mod alarms;

pub use alarm::Alarm;
pub use alarms::Alarms;
