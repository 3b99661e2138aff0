//! A table of rows that stay at their slots, linked in order, by what they watch and in a queue, and found by key.
#![tactic(auto)]

mod birth;
mod enter;
mod find;
mod guesses;
mod keyed;
mod link;
mod node;
mod nodes;
mod numbered;
mod order;
mod placed;
mod queue;
mod room;
mod table;
mod waiting;
mod watching;

pub use keyed::{Keyed, number_of};
pub use numbered::Birth;
pub use placed::{Place, Placed, Watcher};
pub use table::Table;
