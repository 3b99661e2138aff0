//! One kqueue: registering changes, and kevent calls (kqueue(2)).
#![tactic(auto)]

mod arrange;
mod call;
mod clock;
mod close;
mod decide;
mod follow;
mod foretell;
mod kq;
mod look;
mod notify;
mod process;
mod refusals;
mod register;
mod retrieve;
mod steps;

pub use kq::Kq;
pub use look::{event_of, look_in};
