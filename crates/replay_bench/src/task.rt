//! Which replay is to be measured, by the words of the command line.

/// What the program is asked to do.
#[derive(Drop, Clone, Copy)]
pub enum Task {
    Fold,
    Parts { workers: u32 },
}

impl Task {
    /// The task of these words.
    pub fn named(word: Option<&str>, count: Option<&str>) -> Option<Task> {
        match (word, count) {
            (Some("fold"), None) => Some(Task::Fold),
            (Some("parts"), Some(count)) => {
                let workers = count.parse().ok()?;
                Some(Task::Parts { workers })
            }
            _ => None,
        }
    }
}
