//! Work in numbered pieces: what a job gives is known by its number alone.

ghost use Rattle.std.specs.Prelude.{◌≡◌, ◌<◌, ℕ, IfOk};

use kq_model::Memory;

/// Jobs that are told apart by their number, from 0 on. What a job gives is known by its number alone, so it does
/// not matter which worker runs it, and when.
pub trait Jobs {
    type Outcome: Drop;

    // How many jobs there are.
    ghost count: { Self → ℕ };

    // What the job with this number may give.
    ghost gives: { Self → ℕ → Self.Outcome → Type 0 };

    /// How many jobs there are.
    fn len(&self) -> u32
        ensures { result ≡ count self.now };

    /// Runs the job with this number.
    fn run(&self, number: u32) -> Result<Self::Outcome, Memory>
        requires { number < count self.now }
        ensures { IfOk result (λ outcome. gives self.now number outcome) };
}
