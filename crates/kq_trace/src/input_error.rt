//! Why an input is no trace: a failed read, too many bytes, no memory, or a bad line.

ghost use Rattle.std.specs.Prelude.{◌≡◌};

use crate::TraceError;
use kq_model::Memory;

/// Why an input is not read as a trace.
#[derive(Debug, Drop, Clone, Copy, PartialEq, Eq)]
pub enum InputError {
    /// A read failed, or there are too many bytes.
    Read,
    /// There was no memory left, or a line is bad.
    Trace(TraceError),
}

impl From<Memory> for InputError {
    ghost use Rattle.kq_trace.specs.declared.input_error.InputError.TheVariants.{Trace};
    ghost use Rattle.kq_trace.specs.declared.fault.TraceError.TheVariants.{Memory};

    ghost from_gives = { λ _ error. error ≡ Trace Memory };

    fn from(_memory: Memory) -> InputError {
        InputError::Trace(TraceError::Memory)
    }
}

impl From<TraceError> for InputError {
    ghost use Rattle.kq_trace.specs.declared.input_error.InputError.TheVariants.{Trace};

    ghost from_gives = { λ error input_error. input_error ≡ Trace error };

    fn from(error: TraceError) -> InputError {
        InputError::Trace(error)
    }
}
