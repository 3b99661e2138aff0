//! What a record asks of a socket, a pipe or a file, with its descriptors resolved to objects.

use crate::{Mode, Named, Note, Side};

/// A record about sockets, pipes or files, with each descriptor resolved to what it names. Sizes,
/// offsets and amounts are bytes.
#[derive(Drop, Clone, Copy)]
pub enum Act {
    /// A socket is made, with these sizes of its buffers.
    Socket {
        receive_buffer: u32,
        send_buffer: u32,
    },
    /// The socket takes connections; at most `backlog` of them wait.
    Listen {
        on: Named,
        backlog: u32,
    },
    /// A connection arrives at a listening socket.
    Arrive {
        on: Named,
    },
    /// A connection that waits becomes a socket of its own, with these sizes of its buffers.
    Accept {
        on: Named,
        receive_buffer: u32,
        send_buffer: u32,
    },
    /// The socket is connected.
    Connect {
        on: Named,
    },
    /// Bytes come from the peer.
    Receive {
        on: Named,
        bytes: u32,
    },
    /// Bytes of the send buffer go to the peer.
    Transmit {
        on: Named,
        bytes: u32,
    },
    /// A side of the socket is shut, with this error or 0.
    Shut {
        on: Named,
        side: Side,
        error: u32,
    },
    /// The low-water mark of a side; see SO_RCVLOWAT and SO_SNDLOWAT of setsockopt(2).
    LowWater {
        on: Named,
        side: Side,
        mark: u32,
    },
    /// A pipe is made that holds `cap` bytes.
    Pipe {
        cap: u32,
    },
    /// A process reads from a socket, a pipe or a file.
    Read {
        on: Named,
        bytes: u32,
    },
    /// A process writes to a socket, a pipe or a file.
    Write {
        on: Named,
        bytes: u32,
    },
    /// A file is there from now on.
    File {
        file: u32,
        size: i64,
    },
    /// The file is opened, at offset 0.
    Open {
        file: u32,
        mode: Mode,
    },
    /// The offset of an open file description is set.
    Seek {
        on: Named,
        offset: i64,
    },
    /// The size of a file is set.
    Truncate {
        file: u32,
        size: i64,
    },
    /// Something else happens to a file.
    Note {
        file: u32,
        note: Note,
    },
}
