//! Each kqueue of a trace replayed alone, from its private list and what was seen of the world at its places, by as
//! many workers as are wanted.

mod jobs;
mod lone_kqueue;
mod replay;
mod running;

pub use replay::Replay;
pub use running::{replay_all, replay_all_with};
