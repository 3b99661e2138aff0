//! A line of answers: what was answered to the record at a place, or the counts at the end.

use kq_model::{Kevent, Series, Why};

/// What was answered to one record.
#[derive(Drop)]
pub enum Given {
    /// The call returned these events.
    Events(Series<Kevent>),
    /// The call failed with this error number, whichever it is.
    Failed(u32),
    /// The record could not be, as a report says it.
    Impossible(Why),
}

/// What was answered to the record at a place, and the line that says so; both count from 1.
#[derive(Drop)]
pub struct Answer {
    pub line: u64,
    pub at: u64,
    pub given: Given,
}

/// A line of answers.
#[derive(Drop)]
pub enum AnswerLine {
    /// What was answered to one record.
    Answer(Answer),
    /// The line that ends a report, which counts. Its numbers say nothing of an answer.
    Counts,
}
