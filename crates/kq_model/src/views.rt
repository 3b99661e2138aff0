//! The three questions that a kqueue asks of the world: a target, a descriptor, the time.

ghost use Rattle.std.specs.Prelude.{◌≡◌, pos};
ghost use Rattle.kq_model.specs.Views as world;

use crate::{Named, Target, View};

/// A world as kqueues see it. All three answers are the model's for one and the same world, which
/// contracts name by `sees`; what a kqueue does depends on nothing else of it. Who implements it can put
/// a kqueue into a simulator of their own.
pub trait Views {
    ghost sees: { Self → world.Views };

    /// What there is to see of a target; none where it is not there.
    fn view(&self, target: Target) -> Option<View>
        ensures { result ≡ (sees self.now).view target };

    /// What an open descriptor of a process names, by pid and number; none where it is not open.
    fn descriptor(&self, pid: u32, number: u32) -> Option<Named>
        ensures { result ≡ (sees self.now).descriptor pid number };

    /// The clock, in ns from the first moment of the trace; it is never negative.
    fn now(&self) -> i64
        ensures { result ≡ pos (sees self.now).now };
}
