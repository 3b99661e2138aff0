//! What can be put under a lock: a value that changes by steps and answers each.

ghost use Rattle.std.specs.Prelude.{◌≡◌, IfOk, OnErr};

use kq_model::Memory;

/// A value that changes by steps, each of which has an answer.
pub trait Machine: Drop {
    type Step: Drop;

    type Answer: Drop;

    // The value before, the step, its answer, and the value after.
    ghost leads: { Self → Self.Step → Self.Answer → Self → Type 0 };

    /// Takes one step. The answer comes twice: the first goes to the caller, and the history keeps the second.
    /// After `Memory` the value, as contracts see it, is the old one.
    fn apply(&mut self, step: &Self::Step) -> Result<(Self::Answer, Self::Answer), Memory>
        ensures ok { IfOk result (λ r. (r.0 ≡ r.1) × leads self.old step.now r.0 self.new) }
        ensures err { OnErr result (self.new ≡ self.old) };
}
