//! Sockets, pipes, files and open file descriptions: what a record does to them, and what they show.
#![tactic(auto)]

mod by_place;
mod carrying;
mod description;
mod description_plans;
mod error;
mod file;
mod file_plans;
mod files;
mod holding;
mod keys;
mod note_bits;
mod object;
mod objects;
mod pipe;
mod pipe_plans;
mod pipe_steps;
mod plan;
mod planning;
mod reserving;
mod socket;
mod socket_plans;
mod socket_steps;

pub use error::PlanError;
pub use objects::Objects;
pub use plan::Plan;
