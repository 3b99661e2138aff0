//! The calls of the libraries, each run where there is memory and its answer compared: a body that only answers Memory
//! keeps most contracts. And what no contract says of threads that share a lock, a live system or a row of jobs. They
//! stand in a crate of their own, since a crate with tests is proved once more with them.
#![tactic(auto)]

#[cfg(test)]
mod book;
#[cfg(test)]
mod dup;
#[cfg(test)]
mod gates;
#[cfg(test)]
mod jobs;
#[cfg(test)]
mod joins;
#[cfg(test)]
mod live;
#[cfg(test)]
mod lock;
#[cfg(test)]
mod merging;
#[cfg(test)]
mod replay;
#[cfg(test)]
mod room;
#[cfg(test)]
mod single;
