//! Why a record has no plan: it is impossible, or memory was refused.

ghost use Rattle.std.specs.Prelude.{◌≡◌};

use kq_model::{Memory, Why};
use thiserror::Error;

/// Why there is no plan for a record.
#[derive(Debug, Drop, Clone, Copy, PartialEq, Eq, Error)]
pub enum PlanError {
    /// A growth was refused, for a record that is possible.
    #[error("out of memory")]
    Memory,
    /// The record is impossible.
    #[error("impossible: {why:?}", why = .0)]
    Why(Why),
}

impl From<Memory> for PlanError {
    ghost use Rattle.kq_objects.specs.declared.error.PlanError.TheVariants.{Memory};

    ghost from_gives = { λ _ error. error ≡ Memory };

    fn from(_memory: Memory) -> PlanError {
        PlanError::Memory
    }
}

impl From<Why> for PlanError {
    ghost use Rattle.kq_objects.specs.declared.error.PlanError.TheVariants as plan_error;

    ghost from_gives = { λ why error. error ≡ plan_error.Why why };

    fn from(why: Why) -> PlanError {
        PlanError::Why(why)
    }
}
