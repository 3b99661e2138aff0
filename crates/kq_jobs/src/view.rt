//! What a seat at the counter knows.
use std::collections::LinkedList;

/// What a seat knows. No value of it is made.
pub struct View {
    /// How many numbers there are to hand out.
    pub count: u64,
    /// Its parts of the right to draw, of which there are 256 in all.
    pub parts: u64,
    /// The numbers that it drew.
    pub drawn: LinkedList<u64>,
    /// How many of these were past the last one.
    pub past: u64,
}
