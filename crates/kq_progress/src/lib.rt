//! How far a long read is, shown on a terminal.
#![tactic(auto)]

mod clearing;
mod meter;
mod pace;
mod watched;

pub use clearing::Clearing;
pub use meter::Meter;
pub use pace::is_due;
pub use watched::Watched;
