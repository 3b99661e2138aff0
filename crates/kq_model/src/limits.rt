//! The limits of the simulated system and of its trace text. All are this project's choice.

/// Bytes of a line of a trace, without the LF that ends it.
pub const MOST_LINE_BYTES: usize = 1 << 20;

/// Records that are read from a trace.
pub const MOST_RECORDS: u64 = 1_000_000;

/// Changes of one kevent call.
pub const MOST_CHANGES: usize = 1024;

/// The room of one kevent call, in events.
pub const MOST_ROOM: u32 = 65536;
