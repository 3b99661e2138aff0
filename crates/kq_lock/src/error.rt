//! Why a call of a lock was refused: no memory, no tickets, or the turn was not free.

ghost use Rattle.std.specs.Prelude.{◌≡◌};

use kq_model::Memory;
use thiserror::Error;

/// Why a call of a lock was refused. The history has not got the call, and the seat may be used
/// again.
#[derive(Debug, Drop, Clone, Copy, PartialEq, Eq, Error)]
pub enum TurnError {
    /// A growth was refused, or the machine's `apply` answered `Memory`.
    #[error("there is no memory left")]
    Memory,
    /// All the tickets of the lock were drawn.
    #[error("all tickets of the lock were drawn")]
    WornOut,
    /// The turn was not free. Only `try_call` says so.
    #[error("another call has the turn")]
    Busy,
}

impl From<Memory> for TurnError {
    ghost use Rattle.kq_lock.specs.declared.error.TurnError.TheVariants.{Memory};

    ghost from_gives = { λ _ error. error ≡ Memory };

    fn from(_memory: Memory) -> TurnError {
        TurnError::Memory
    }
}
