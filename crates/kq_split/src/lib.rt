//! The private list of each kqueue of a trace, and the rows that it gives alone, as text.
#![tactic(auto)]

mod fault;
mod item;
mod kqueue;
mod listing;
mod output;
mod running;
mod wanted;

pub use fault::Fault;
pub use running::write_text;
pub use wanted::Wanted;
