//! What is noted of a socket, a pipe, an open file description or a file as records happen.

use crate::{Mode, Side};

/// What is noted of one socket. Sizes and amounts are bytes.
#[derive(Debug, Drop, Clone, Copy)]
pub enum SocketRecord {
    /// Made, with the sizes of its buffers and one descriptor that names it.
    Made {
        receive_buffer: u32,
        send_buffer: u32,
    },
    /// It listens, and at most so many connections wait.
    Listened {
        backlog: u32,
    },
    /// One more connection waits.
    Arrived,
    /// One connection no longer waits.
    Accepted,
    Connected,
    /// Bytes came into the receive buffer.
    Received {
        bytes: u32,
    },
    /// A process took bytes out of the receive buffer.
    Read {
        bytes: u32,
    },
    /// A process put bytes into the send buffer.
    Written {
        bytes: u32,
    },
    /// Bytes left the send buffer.
    Transmitted {
        bytes: u32,
    },
    /// A side was shut, with an error or 0.
    Shut {
        side: Side,
        error: u32,
    },
    /// The low-water mark of a side was set.
    Marked {
        side: Side,
        mark: u32,
    },
    /// One more descriptor names it.
    Held,
    /// One descriptor no longer names it.
    Released,
}

/// What is noted of one pipe. Amounts are bytes.
#[derive(Debug, Drop, Clone, Copy)]
pub enum PipeRecord {
    /// Made, to hold `cap` bytes, with one descriptor of each end.
    Made { cap: u32 },
    Read { bytes: u32 },
    Written { bytes: u32 },
    /// One more descriptor names this end.
    Held { end: Side },
    /// One descriptor no longer names this end.
    Released { end: Side },
}

/// What is noted of one open file description. Amounts are bytes.
#[derive(Debug, Drop, Clone, Copy)]
pub enum DescriptionRecord {
    /// A file was opened, at offset 0, with one descriptor that names the description.
    Opened { file: u32, mode: Mode },
    /// So many bytes were read or written at the offset.
    Moved { bytes: u32 },
    /// The offset was set.
    Sought { offset: u64 },
    /// One more descriptor names it.
    Held,
    /// One descriptor no longer names it.
    Released,
}

/// What is noted of one file. Sizes and ends are bytes.
#[derive(Debug, Drop, Clone, Copy)]
pub enum FileRecord {
    /// It is there from now on.
    Made { size: u64 },
    /// Its size was set.
    Sized { size: u64 },
    /// A write ended at this offset.
    Reached { end: u64 },
    Deleted,
    /// The description of this place was opened on it.
    Opened { description: u64 },
    /// The description of this place ended.
    Left { description: u64 },
}

/// What is noted, and of which object. A socket, a pipe and an open file description are named by
/// the place of the record that made them, a file by its number.
#[derive(Debug, Drop, Clone, Copy)]
pub enum Doing {
    ToSocket { place: u64, told: SocketRecord },
    ToPipe { place: u64, told: PipeRecord },
    ToDescription { place: u64, told: DescriptionRecord },
    ToFile { file: u32, told: FileRecord },
}
