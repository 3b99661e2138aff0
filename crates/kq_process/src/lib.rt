//! The world: processes, their descriptors, the objects that these name, and the clock.
#![tactic(auto)]

mod acts;
mod applying;
mod counting;
mod descriptors;
mod effect;
mod far_guesses;
mod guesses;
mod ignored;
mod process;
mod processes;
mod records;
mod search;
mod seen;
mod sharing;
mod shelf;
mod state;
mod steps;
mod uses;
mod world;

pub use effect::Effect;
pub use world::World;
