//! Why not all of a trace was answered, the line that says so, and the exit status.

ghost use Rattle.std.specs.Prelude.{◌≡◌};

use kq_input::LinesError;
use kq_model::{LineFault, Memory};
use thiserror::Error;

/// Why not all was answered. Its text is the line that the program prints on standard error.
#[derive(Debug, Drop, Clone, Copy, PartialEq, Error)]
pub enum Fault {
    /// The words of the command line are none of the program's.
    #[error("kqstep: usage")]
    Usage,
    /// A read failed.
    #[error("kqstep: cannot read the trace")]
    Read,
    /// The first line is not a header.
    #[error("kqstep: line 1: {name}", name = .fault.name())]
    Header { fault: LineFault },
    /// A growth was refused.
    #[error("kqstep: out of memory")]
    Memory,
    /// A write failed, or took nothing.
    #[error("kqstep: cannot write the report")]
    Write,
}

impl Fault {
    ghost use Rattle.kq_step.specs.Fault.{status_of};

    /// The program's exit status after this fault: that of `kqsim` after the same.
    pub fn status(self) -> u8
        ensures { result ≡ status_of self }
    {
        match self {
            Fault::Usage => 2,
            Fault::Read => 3,
            Fault::Header { .. } => 4,
            Fault::Memory => 5,
            Fault::Write => 7,
        }
    }
}

impl From<Memory> for Fault {
    ghost use Rattle.kq_step.specs.declared.fault.Fault.TheVariants.{Memory};

    ghost from_gives = { λ _ fault. fault ≡ Memory };

    fn from(_memory: Memory) -> Fault {
        Fault::Memory
    }
}

impl From<LinesError> for Fault {
    ghost use Rattle.kq_step.specs.Fault.{fault_of};

    ghost from_gives = { λ error fault. fault ≡ fault_of error };

    fn from(error: LinesError) -> Fault {
        match error {
            LinesError::Read => Fault::Read,
            LinesError::Memory => Fault::Memory,
        }
    }
}
