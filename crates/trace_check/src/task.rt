//! What is to be read or written, by the word of the command line.

/// What the program is asked to do.
#[derive(Drop, Clone, Copy)]
pub enum Task {
    Read,
    Values,
    Write,
    Each,
    EachValue,
    Fallbacks,
}

impl Task {
    /// The task of this word.
    pub fn named(word: &str) -> Option<Task> {
        match word {
            "read" => Some(Task::Read),
            "values" => Some(Task::Values),
            "write" => Some(Task::Write),
            "each" => Some(Task::Each),
            "each-value" => Some(Task::EachValue),
            "fallbacks" => Some(Task::Fallbacks),
            _ => None,
        }
    }
}
