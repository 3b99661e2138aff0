//! What knotes watch, what they are told and see of it, and what a descriptor can name.

ghost use Rattle.std.specs.Prelude.{◌≡◌};
ghost use Rattle.std.specs.Cmp.Rules.{hashing};
ghost use Rattle.std.proofs.Common.{rules};
ghost use Rattle.kq_model.specs.Hashed.{hashed_target};

use std::hash::{Hash, Hasher};

/// What a knote watches. A socket, a pipe and an open file description are named by the place of
/// the record that made them.
#[derive(Debug, Drop, Clone, Copy, PartialEq, Eq)]
pub enum Target {
    Socket(u64),
    Pipe(u64),
    /// An open file description.
    Open(u64),
    /// A file by its number.
    File(u32),
    Process(u32),
    Signal { pid: u32, signal: u32 },
    /// The knote itself: a timer or a user event.
    Own,
}

// Almost each record has tables asked for a target, and most are told apart by one number: so the
// kind is not hashed.
impl Hash for Target {
    ghost hash_input = { hashed_target };

    ghost respects_eq = { Prim.search (hashing, rules) };

    #[tactic(auto, unfolding(crate::specs::Hashed::hashed_target))]
    fn hash<H: Hasher>(&self, state: &mut H) {
        match self {
            Target::Socket(place) | Target::Pipe(place) | Target::Open(place) => {
                state.write_u64(*place)
            }
            Target::File(number) => state.write_u32(*number),
            Target::Process(pid) => state.write_u32(*pid),
            Target::Signal { pid, signal } => {
                state.write_u32(*pid);
                state.write_u32(*signal);
            }
            Target::Own => {}
        }
    }
}

/// What a record tells the knotes of a target.
#[derive(Debug, Drop, Clone, Copy, PartialEq, Eq)]
pub enum Hint {
    Readable,
    Writable,
    /// Notes of a file or a process, as bits of fflags.
    Note(u32),
    /// A signal was delivered.
    Delivered,
    /// The process forked this child.
    Child(u32),
}

/// What a descriptor is. Each place is that of the record that made the thing.
#[derive(Debug, Drop, Clone, Copy, PartialEq, Eq)]
pub enum Named {
    Socket(u64),
    PipeRead(u64),
    PipeWrite(u64),
    Open { description: u64, file: u32 },
    Kqueue(u64),
}

/// What a filter sees of its target. Amounts, sizes and marks are bytes.
#[derive(Debug, Drop, Clone, Copy, PartialEq, Eq)]
pub enum View {
    /// A listening socket and its connections that wait to be accepted.
    Listen {
        pending: i64,
    },
    /// A socket that does not listen. A side is shut with an error or 0.
    Sock {
        readable: i64,
        read_mark: i64,
        read_shut: bool,
        read_error: u32,
        connected: bool,
        space: i64,
        write_mark: i64,
        write_shut: bool,
        write_error: u32,
    },
    /// A pipe; `writer` and `reader` say whether such an end is open.
    Pipe {
        bytes: i64,
        cap: i64,
        writer: bool,
        reader: bool,
    },
    /// An open file description: the file's size and this description's offset.
    Open {
        size: i64,
        offset: i64,
    },
    File,
    /// A process, with its exit status once it has exited.
    Process {
        exited: Option<u32>,
    },
}
