//! Laws of kqueue(2) over the whole life of a kqueue, in a user's words. They are of the fold that the code makes, in
//! which a knote keeps a tally of what it heard.
#![tactic(auto)]

mod calling;
mod polling;
mod running;

pub use calling::call;
pub use polling::poll;
pub use running::apply;
