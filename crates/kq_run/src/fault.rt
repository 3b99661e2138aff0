//! Why there is no whole report: the line that says so, and the exit status.

ghost use Rattle.std.specs.Prelude.{◌≡◌};

use kq_model::{LineFault, Memory};
use kq_trace::{InputError, TraceError};
use thiserror::Error;

/// Why there is no report, or not the whole of it. Its text is the line that the program prints on
/// standard error.
#[derive(Debug, Drop, Clone, Copy, PartialEq, Error)]
pub enum Fault {
    /// The words of the command line are none of the program's, or a number is out of its range.
    #[error("kqsim: usage")]
    Usage,
    /// The trace could not be read, or is longer than the program takes.
    #[error("kqsim: cannot read the trace")]
    Read,
    /// The trace has a bad line; lines count from 1.
    #[error("kqsim: line {line}: {name}", name = .fault.name())]
    Trace { line: u64, fault: LineFault },
    /// A growth was refused.
    #[error("kqsim: out of memory")]
    Memory,
    /// The start of a thread was refused.
    #[error("kqsim: cannot start a thread")]
    Spawn,
    /// A write failed, or took nothing.
    #[error("kqsim: cannot write the report")]
    Write,
}

impl Fault {
    ghost use Rattle.kq_run.specs.Fault.{status_of};

    /// The program's exit status after this fault: 2 to 7, in the order of the faults.
    pub fn status(self) -> u8
        ensures { result ≡ status_of self }
    {
        match self {
            Fault::Usage => 2,
            Fault::Read => 3,
            Fault::Trace { .. } => 4,
            Fault::Memory => 5,
            Fault::Spawn => 6,
            Fault::Write => 7,
        }
    }
}

impl From<Memory> for Fault {
    ghost use Rattle.kq_run.specs.declared.fault.Fault.TheVariants.{Memory};

    ghost from_gives = { λ _ fault. fault ≡ Memory };

    fn from(_memory: Memory) -> Fault {
        Fault::Memory
    }
}

impl From<TraceError> for Fault {
    ghost use Rattle.kq_run.specs.Fault.{fault_of};

    ghost from_gives = { λ error fault. fault ≡ fault_of error };

    fn from(error: TraceError) -> Fault {
        match error {
            TraceError::Memory => Fault::Memory,
            TraceError::Bad { line, fault } => Fault::Trace { line, fault },
        }
    }
}

impl From<InputError> for Fault {
    ghost use Rattle.kq_run.specs.Fault.{input_fault_of};

    ghost from_gives = { λ error fault. fault ≡ input_fault_of error };

    fn from(error: InputError) -> Fault {
        match error {
            InputError::Read => Fault::Read,
            InputError::Trace(error) => Fault::from(error),
        }
    }
}
