//! Why shares did not go over some records.

ghost use Rattle.std.specs.Prelude.{◌≡◌};

use kq_model::Memory;
use thiserror::Error;

/// Why the shares did not go over some records.
#[derive(Debug, Drop, Clone, Copy, PartialEq, Eq, Error)]
pub enum ShareFault {
    /// A growth was refused.
    #[error("there is no memory left")]
    Memory,
    /// The start of a thread was refused.
    #[error("a thread cannot be started")]
    Spawn,
}

impl From<Memory> for ShareFault {
    ghost use Rattle.kq_shares.specs.declared.fault.ShareFault.TheVariants.{Memory};

    ghost from_gives = { λ _ fault. fault ≡ Memory };

    fn from(_memory: Memory) -> ShareFault {
        ShareFault::Memory
    }
}
