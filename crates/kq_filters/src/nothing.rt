//! A world that is empty, for kqueues that ask nothing of it.

ghost use Rattle.std.specs.Prelude.{◌≡◌};
ghost use Rattle.kq_filters.specs.Nothing.{nothing_there};

use kq_model::{Named, Target, View, Views};

/// A world in which nothing is there and the clock stands at 0: for kqueues with nothing but user
/// events, which need no world.
#[derive(Debug, Drop, Clone, Copy)]
pub struct NothingThere;

impl Views for NothingThere {
    ghost sees = { λ _. nothing_there };

    fn view(&self, _target: Target) -> Option<View> {
        None
    }

    fn descriptor(&self, _pid: u32, _number: u32) -> Option<Named> {
        None
    }

    fn now(&self) -> i64 {
        0
    }
}
