//! Which calls are to be made, by the words of the command line.

/// What the program is asked to do.
#[derive(Drop, Clone, Copy)]
pub enum Task {
    Apply,
    Seats,
    Alone { workers: u32 },
}

impl Task {
    /// The task of these words.
    pub fn named(word: Option<&str>, count: Option<&str>) -> Option<Task> {
        match (word, count) {
            (Some("apply"), None) => Some(Task::Apply),
            (Some("seats"), None) => Some(Task::Seats),
            (Some("alone"), Some(count)) => {
                let workers = count.parse().ok()?;
                Some(Task::Alone { workers })
            }
            _ => None,
        }
    }
}
