//! Why nothing was printed, or not the whole of it.
ghost use Rattle.std.specs.Prelude.{◌≡◌};

use kq_model::{LineFault, Memory};
use kq_trace::{InputError, TraceError};
use thiserror::Error;

/// Why nothing was printed, or not the whole of it. Its text is the line that the program prints on standard error.
#[derive(Debug, Drop, Clone, Copy, PartialEq, Error)]
pub enum Fault {
    /// The words of the command line are none of the program's.
    #[error("kqsplit: usage")]
    Usage,
    /// The record at the place that was asked for makes no kqueue, or is not there.
    #[error("kqsplit: no kqueue is made at {at}")]
    NoKqueue { at: u64 },
    /// The trace could not be read, or is longer than the program takes.
    #[error("kqsplit: cannot read the trace")]
    Read,
    /// The trace has a bad line; lines count from 1.
    #[error("kqsplit: line {line}: {name}", name = .fault.name())]
    Trace { line: u64, fault: LineFault },
    /// A growth was refused.
    #[error("kqsplit: out of memory")]
    Memory,
    /// A write failed, or took nothing.
    #[error("kqsplit: cannot write the report")]
    Write,
}

impl Fault {
    ghost use Rattle.kq_split.specs.Fault.{status_of};

    /// The program's exit status after this fault: that of `kqsim` after the same. To ask for a kqueue that is not
    /// there is a wrong use.
    pub fn status(self) -> u8
        ensures { result ≡ status_of self }
    {
        match self {
            Fault::Usage | Fault::NoKqueue { .. } => 2,
            Fault::Read => 3,
            Fault::Trace { .. } => 4,
            Fault::Memory => 5,
            Fault::Write => 7,
        }
    }
}

impl From<Memory> for Fault {
    ghost use Rattle.kq_split.specs.declared.fault.Fault.TheVariants.{Memory};

    ghost from_gives = { λ _ fault. fault ≡ Memory };

    fn from(_memory: Memory) -> Fault {
        Fault::Memory
    }
}

impl From<InputError> for Fault {
    ghost use Rattle.kq_split.specs.Fault.{input_fault_of};

    ghost from_gives = { λ error fault. fault ≡ input_fault_of error };

    fn from(error: InputError) -> Fault {
        match error {
            InputError::Read => Fault::Read,
            InputError::Trace(TraceError::Memory) => Fault::Memory,
            InputError::Trace(TraceError::Bad { line, fault }) => Fault::Trace { line, fault },
        }
    }
}
