//! What the answers to a trace come to, and the exit status for it.

ghost use Rattle.std.specs.Prelude.{◌≡◌};
ghost use Rattle.kq_check.specs.Status.{outcome_status};

use kq_model::Why;

/// What the answers to a trace come to.
#[derive(Drop, Clone, Copy)]
pub enum Outcome {
    /// Each answer is the one that the order of the queue gives.
    Equal,
    /// Each answer is one that some order gives; the one at this place is the first in another order.
    Allowed { first: u64 },
    /// No order of the queue, as the run left it, gives the answer at this place, and each earlier call of the kqueue
    /// that could have returned others has its answer. All answers before it are allowed.
    Refused { at: u64 },
    /// No order of the queue, as the run left it, gives the answer at this place, but an earlier call of the kqueue has
    /// no answer and could have returned others. All answers before it are allowed.
    Unknown { at: u64 },
    /// The record at this place could not be, and all before it is allowed.
    Impossible { at: u64, why: Why },
}

impl Outcome {
    /// The program's exit status after it.
    pub fn status(self) -> u8
        ensures { result ≡ outcome_status self }
    {
        match self {
            Outcome::Equal | Outcome::Allowed { .. } => 0,
            Outcome::Refused { .. } | Outcome::Impossible { .. } => 1,
            Outcome::Unknown { .. } => 8,
        }
    }
}
