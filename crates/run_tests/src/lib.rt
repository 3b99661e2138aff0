//! The calls of `kq_run` and `kq_command`, each run where there is memory and its answer compared. The tests stand in a
//! crate of their own, since a crate with tests is proved once more with them.
#![tactic(auto)]

#[cfg(test)]
mod gates;
#[cfg(test)]
mod given;
#[cfg(test)]
mod living;
#[cfg(test)]
mod narrow;
#[cfg(test)]
mod orders;
#[cfg(test)]
mod replaying;
#[cfg(test)]
mod streams;
#[cfg(test)]
mod words;
#[cfg(test)]
mod workers;
