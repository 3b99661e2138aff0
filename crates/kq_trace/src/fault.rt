//! Why a text was not read as a trace: no memory, or its first bad line.

ghost use Rattle.std.specs.Prelude.{◌≡◌};

use kq_model::{LineFault, Memory};
use thiserror::Error;

/// Why a text is not read as a trace.
#[derive(Debug, Drop, Clone, Copy, PartialEq, Eq, Error)]
pub enum TraceError {
    /// There was no memory left to read the trace in.
    #[error("out of memory")]
    Memory,
    /// A line is bad: the first such line, counted from 1, and the first fault that it has.
    #[error("line {line}: {name}", name = .fault.name())]
    Bad { line: u64, fault: LineFault },
}

impl From<Memory> for TraceError {
    ghost use Rattle.kq_trace.specs.declared.fault.TraceError.TheVariants.{Memory};

    ghost from_gives = { λ _ error. error ≡ Memory };

    fn from(_memory: Memory) -> TraceError {
        TraceError::Memory
    }
}
