//! Why not all steps were served: a call was refused, or a thread was not started.

ghost use Rattle.std.specs.Prelude.{◌≡◌};

use kq_lock::TurnError;
use kq_model::Memory;
use thiserror::Error;

/// Why the steps were not all served.
#[derive(Debug, Drop, Clone, Copy, PartialEq, Eq, Error)]
pub enum ServeError {
    /// A call of the lock was refused, or there was no memory left for it.
    #[error("a call was refused: {0}")]
    Call(TurnError),
    /// The start of a thread was refused.
    #[error("a thread cannot be started")]
    Spawn,
}

impl From<TurnError> for ServeError {
    ghost use Rattle.kq_serve.specs.declared.error.ServeError.TheVariants.{Call};

    ghost from_gives = { λ refused error. error ≡ Call refused };

    fn from(refused: TurnError) -> ServeError {
        ServeError::Call(refused)
    }
}

impl From<Memory> for ServeError {
    ghost use Rattle.kq_lock.specs.declared.error.TurnError.TheVariants.{Memory};
    ghost use Rattle.kq_serve.specs.declared.error.ServeError.TheVariants.{Call};

    ghost from_gives = { λ _ error. error ≡ Call Memory };

    fn from(_memory: Memory) -> ServeError {
        ServeError::Call(TurnError::Memory)
    }
}
