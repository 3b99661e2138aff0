//! Why not all jobs were run: the number of workers, memory, or a start that was refused.

ghost use Rattle.std.specs.Prelude.{◌≡◌};

use kq_model::Memory;
use thiserror::Error;

/// Why the jobs were not all run.
#[derive(Debug, Drop, Clone, Copy, PartialEq, Eq, Error)]
pub enum RunFault {
    /// There are 1 to 256 workers.
    #[error("the number of workers is not in 1 to 256")]
    Workers,
    /// A growth was refused, or a job answered so.
    #[error("there is no memory left")]
    Memory,
    /// The start of a worker was refused.
    #[error("a worker cannot be started")]
    Spawn,
}

impl From<Memory> for RunFault {
    ghost use Rattle.kq_jobs.specs.declared.fault.RunFault.TheVariants.{Memory};

    ghost from_gives = { λ _ fault. fault ≡ Memory };

    fn from(_memory: Memory) -> RunFault {
        RunFault::Memory
    }
}
