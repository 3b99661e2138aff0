//! A machine whose steps have owners, by which they are shared out among threads.

ghost use Rattle.std.specs.Prelude.{◌≡◌, IfOk, ℕ};

use kq_lock::Machine;
use kq_model::Memory;

/// A machine whose steps are shared out among threads, each step by its owner.
pub trait Served: Machine {
    // Thread t among n takes the steps whose owner leaves t when divided by n.
    ghost owner: { Self.Step → ℕ };

    /// The owner of a step.
    fn owner_of(step: &Self::Step) -> u64
        ensures { result ≡ owner step.now };

    /// An equal step.
    fn copy(step: &Self::Step) -> Result<Self::Step, Memory>
        ensures { IfOk result (λ s. s ≡ step.now) };
}
