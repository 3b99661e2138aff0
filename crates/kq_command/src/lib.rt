//! The command line of `kqsim`: the order that its words give, and what carrying that out comes to.
#![tactic(auto)]

mod command_line;
mod order;
mod running;

pub use command_line::parse_words;
pub use order::Order;
pub use running::{run_order, tell};
