//! A list of steps that many threads serve, under one lock.
#![tactic(auto)]

mod error;
mod served;
mod service;
mod share;

pub use error::ServeError;
pub use served::Served;
pub use service::{serve, serve_all};
