//! Why nothing is printed: the line that says so, and the exit status.

use kq_live::LiveError;
use kq_model::{LineFault, Memory};
use kq_run::Fault as ReplayFault;
use kq_trace::TraceError;
use std::alloc::AllocError;
use std::io;
use std::io::ErrorKind;
use thiserror::Error;

/// Why nothing is printed. Its text is the line on standard error.
#[derive(Debug, Drop, Clone, Copy, PartialEq, Error)]
pub enum Fault {
    #[error("usage: refused_calls apply | seats | alone N")]
    Usage,
    /// Standard input could not be read, or standard output not be written.
    #[error("cannot read or write")]
    Stream,
    #[error("line {line}: {name}", name = .fault.name())]
    Trace { line: u64, fault: LineFault },
    /// A growth was refused outside the calls that are made again, or both times that one was made.
    #[error("out of memory")]
    Memory,
    /// A live system took no further call, or the turn was not free.
    #[error("a call was refused")]
    Refused,
    /// There is no report, and memory is not why.
    #[error(transparent)]
    Replay(ReplayFault),
}

impl Fault {
    /// The exit status: that of `kqsim` where a growth was refused, and after a replay.
    pub fn status(self) -> u8 {
        match self {
            Fault::Memory => ReplayFault::Memory.status(),
            Fault::Replay(fault) => fault.status(),
            _ => 1,
        }
    }
}

impl From<Memory> for Fault {
    fn from(_memory: Memory) -> Fault {
        Fault::Memory
    }
}

impl From<AllocError> for Fault {
    fn from(_error: AllocError) -> Fault {
        Fault::Memory
    }
}

impl From<TraceError> for Fault {
    fn from(error: TraceError) -> Fault {
        match error {
            TraceError::Memory => Fault::Memory,
            TraceError::Bad { line, fault } => Fault::Trace { line, fault },
        }
    }
}

impl From<ReplayFault> for Fault {
    fn from(fault: ReplayFault) -> Fault {
        match fault {
            ReplayFault::Memory => Fault::Memory,
            fault => Fault::Replay(fault),
        }
    }
}

impl From<LiveError> for Fault {
    fn from(error: LiveError) -> Fault {
        match error {
            LiveError::Memory => Fault::Memory,
            _ => Fault::Refused,
        }
    }
}

impl From<io::Error> for Fault {
    fn from(error: io::Error) -> Fault {
        match error.kind() {
            ErrorKind::OutOfMemory => Fault::Memory,
            _ => Fault::Stream,
        }
    }
}
