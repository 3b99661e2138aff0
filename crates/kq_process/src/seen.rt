//! The world as kqueues look at it: views of targets, named numbers, and the clock.

ghost use Rattle.kq_model.specs.World.{views_of};
ghost use Rattle.kq_process.specs.World.{world_of};

use crate::world::World;
use kq_model::{Named, Target, View, Views};

/// The world as kqueues see it.
impl Views for World {
    ghost sees = { λ w. views_of (world_of w) };

    #[tactic(auto, unfolding(kq_model::specs::World::views_of))]
    #[inline(always)]
    fn view(&self, target: Target) -> Option<View> {
        World::view(self, target)
    }

    #[tactic(auto, unfolding(kq_model::specs::World::views_of))]
    fn descriptor(&self, pid: u32, number: u32) -> Option<Named> {
        World::descriptor(self, pid, number)
    }

    #[tactic(auto, unfolding(kq_model::specs::World::views_of))]
    fn now(&self) -> i64 {
        World::now(self)
    }
}
