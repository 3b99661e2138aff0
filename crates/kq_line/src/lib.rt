//! One record of a trace, read off its line in one pass, without a JSON value for it.
//!
//! [`LineReader`] knows the lines that programs write: members in any order, whole numbers of 64 bits with and
//! without a sign, names, true and false, lists of flags and of changes, with or without a blank behind a comma
//! or a colon. Of any other line it says nothing, whether the line is good or bad: that one is for a reader of
//! all JSON. What it does say is what the definition of reading says.
#![tactic(auto)]

mod changes;
mod cursor;
mod file_records;
mod flags;
mod found;
mod keys;
mod kinds;
mod line_reader;
mod lookup;
mod members;
mod names;
mod numbers;
mod piece;
mod records;
mod scalars;
mod signal_records;
mod usual;
mod usual_change;
mod usual_members;
mod usual_records;

pub use line_reader::LineReader;
