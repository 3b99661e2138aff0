//! The simulated system for C: `include/kqsim.h` declares what is exported here.
#![tactic(auto)]

mod asked;
mod asking;
mod c_knote;
mod call;
mod descriptors;
mod files;
mod handle;
mod life;
mod log;
mod logging;
mod processes;
mod published;
mod record;
mod sim;
mod sockets;
mod step;
mod text;
mod version;
