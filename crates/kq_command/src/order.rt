//! What the words ask for: a trace's report, or its run on one live system.

ghost use Rattle.std.specs.Prelude.{◌≡◌};

/// What the program is to do.
#[derive(Debug, Drop, PartialEq)]
pub enum Order {
    /// Print the report of a trace.
    Replay {
        /// How many threads replay; 1 to 256 are in range.
        workers: u32,
        /// The file with the trace, or `-` for standard input.
        file: String,
    },
    /// Run a trace on one live system, and print the report of its book.
    Live {
        /// How many threads call the system; 1 to 64 are in range.
        threads: u32,
        /// The file with the trace, or `-` for standard input.
        file: String,
    },
    /// Run a trace on one live system, and print the trace of its book.
    Book {
        /// How many threads call the system; 1 to 64 are in range.
        threads: u32,
        /// The file with the trace, or `-` for standard input.
        file: String,
    },
}

impl Order {
    ghost use Rattle.kq_command.specs.Run.{file_of};

    /// The file with the trace, or `-` for standard input.
    pub fn file(&self) -> &str
        ensures { result.now ≡ file_of self.now }
    {
        match self {
            Order::Replay { file, .. } | Order::Live { file, .. } | Order::Book { file, .. } =>
                file.as_str(),
        }
    }
}
