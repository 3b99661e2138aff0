//! Why nothing was judged or not all was said: the line that says so, and the exit status.

ghost use Rattle.std.specs.Prelude.{◌≡◌};

use kq_answers::{AnswerFault, AnswersError};
use kq_model::{LineFault, Memory};
use kq_trace::TraceError;
use thiserror::Error;

/// Why nothing was judged, or not the whole of it said. Its text is the line that the program prints on standard error.
#[derive(Debug, Drop, Clone, Copy, Error)]
pub enum Fault {
    /// The words of the command line are none of the program's.
    #[error("kqcheck: usage")]
    Usage,
    /// The trace could not be read, or is longer than the program takes.
    #[error("kqcheck: cannot read the trace")]
    ReadTrace,
    /// The answers could not be read, or are longer than the program takes.
    #[error("kqcheck: cannot read the answers")]
    ReadAnswers,
    /// The trace has a bad line; lines count from 1.
    #[error("kqcheck: line {line}: {name}", name = .fault.name())]
    Trace { line: u64, fault: LineFault },
    /// The answers have a bad line; lines count from 1.
    #[error("kqcheck: answers: line {line}: {name}", name = .fault.name())]
    Answers { line: u64, fault: AnswerFault },
    /// The record that is to be explained is no call, or not there.
    #[error("kqcheck: no call at {at}")]
    NoCall { at: u64 },
    /// A growth was refused.
    #[error("kqcheck: out of memory")]
    Memory,
    /// A write failed, or took nothing.
    #[error("kqcheck: cannot write the report")]
    Write,
}

impl Fault {
    ghost use Rattle.kqcheck.specs.Fault.{status_of};

    /// The program's exit status after this fault: that of `kqsim` after the same.
    pub fn status(self) -> u8
        ensures { result ≡ status_of self }
    {
        match self {
            Fault::Usage => 2,
            Fault::ReadTrace | Fault::ReadAnswers => 3,
            Fault::Trace { .. } | Fault::Answers { .. } | Fault::NoCall { .. } => 4,
            Fault::Memory => 5,
            Fault::Write => 7,
        }
    }
}

impl From<Memory> for Fault {
    ghost use Rattle.kqcheck.specs.declared.fault.Fault.TheVariants.{Memory};

    ghost from_gives = { λ _ fault. fault ≡ Memory };

    fn from(_memory: Memory) -> Fault {
        Fault::Memory
    }
}

impl From<TraceError> for Fault {
    ghost use Rattle.kqcheck.specs.Fault.{trace_fault_of};

    ghost from_gives = { λ error fault. fault ≡ trace_fault_of error };

    fn from(error: TraceError) -> Fault {
        match error {
            TraceError::Memory => Fault::Memory,
            TraceError::Bad { line, fault } => Fault::Trace { line, fault },
        }
    }
}

impl From<AnswersError> for Fault {
    ghost use Rattle.kqcheck.specs.Fault.{answers_fault_of};

    ghost from_gives = { λ error fault. fault ≡ answers_fault_of error };

    fn from(error: AnswersError) -> Fault {
        match error {
            AnswersError::Memory => Fault::Memory,
            AnswersError::Bad { line, fault } => Fault::Answers { line, fault },
        }
    }
}
