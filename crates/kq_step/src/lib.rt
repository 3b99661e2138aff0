//! Answers each record of a trace as it comes.
#![tactic(auto)]

mod answering;
mod fault;
mod output;
mod stepping;
mod text;

pub use answering::answer_all;
pub use fault::Fault;
pub use output::write_out;
