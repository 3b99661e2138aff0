//! The kinds of records, one for each value of `op`, and the types of their members.

/// The kinds of records. In a trace a record's member `op` names its kind.
#[derive(Debug, Drop, Clone, Copy)]
pub enum RecordKind {
    Proc,
    Fork,
    Exit,
    Kqueue,
    Dup,
    Close,
    Socket,
    Listen,
    Arrive,
    Accept,
    Connect,
    Rx,
    Tx,
    Shut,
    Lowat,
    Pipe,
    Read,
    Write,
    Exec,
    Sigset,
    Sig,
    File,
    Open,
    Seek,
    Truncate,
    Note,
    Clock,
    Kevent,
}

/// What a member of a record is.
#[derive(Debug, Drop, Clone, Copy)]
pub enum MemberType {
    /// A whole number.
    Whole,
    /// True or false.
    Truth,
    /// The name of a side of a socket.
    SideName,
    /// The name of a mode in which a file is opened.
    ModeName,
    /// The name of a note on a file.
    NoteName,
    /// A list of changes.
    ChangeList,
}
