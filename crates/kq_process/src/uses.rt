//! What a process does with an object by a descriptor, and the record about objects that it is.

ghost use Rattle.std.specs.Prelude.{◌≡◌};

use kq_model::{Act, Named, Side};

/// What a process does with an object by a descriptor. Amounts, marks and offsets are bytes.
#[derive(Clone, Copy, Drop)]
pub enum Use {
    /// At most `backlog` connections wait (listen(2)).
    Listen { backlog: u32 },
    /// A connection arrives.
    Arrive,
    /// The socket is connected.
    Connect,
    /// Bytes come from the peer.
    Receive { bytes: u32 },
    /// Bytes of the send buffer go to the peer.
    Transmit { bytes: u32 },
    /// A side is shut, with this error or 0 (shutdown(2)).
    Shut { side: Side, error: u32 },
    /// The low-water mark of a side.
    LowWater { side: Side, mark: u32 },
    /// See read(2).
    Read { bytes: u32 },
    /// See write(2).
    Write { bytes: u32 },
    /// See lseek(2).
    Seek { offset: i64 },
}

impl Use {
    ghost use Rattle.kq_process.specs.Uses.{act_on};

    /// The record about objects, where the descriptor names this.
    pub fn on(self, on: Named) -> Act
        ensures { result ≡ act_on self on }
    {
        match self {
            Use::Listen { backlog } => Act::Listen { on, backlog },
            Use::Arrive => Act::Arrive { on },
            Use::Connect => Act::Connect { on },
            Use::Receive { bytes } => Act::Receive { on, bytes },
            Use::Transmit { bytes } => Act::Transmit { on, bytes },
            Use::Shut { side, error } => Act::Shut { on, side, error },
            Use::LowWater { side, mark } => Act::LowWater { on, side, mark },
            Use::Read { bytes } => Act::Read { on, bytes },
            Use::Write { bytes } => Act::Write { on, bytes },
            Use::Seek { offset } => Act::Seek { on, offset },
        }
    }
}
