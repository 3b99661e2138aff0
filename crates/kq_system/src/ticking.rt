//! How the clock goes on for the kqueues that may have timers, each once.

ghost use Rattle.std.specs.Prelude.{◌≡◌, ◌≤◌, false, nat_eq};
ghost use Rattle.kq_model.specs.declared.object.Target.TheVariants.{Own};
ghost use Rattle.kq_model.specs.Ticks.{last_moment};
ghost use Rattle.kq_system.specs.Places.{has_place};
ghost use Rattle.kq_system.specs.Showing.{AreShown, IsRung, places_of};

use crate::index::Index;
use crate::live::Live;
use indexmap::IndexMap;
use kq_model::Target;

/// The clock goes on for the kqueue of a place, where there is one.
fn ring_one(live: &mut IndexMap<u64, Live>, place: u64, round: u64, from: u64, to: u64)
    requires ordered { from ≤ to }
    requires within { to ≤ last_moment }
    ensures { AreShown round (IsRung (record { from = from; to = to })) (λ p. nat_eq p place) false
        live.old.entries live.new.entries }
{
    if let Some(one) = live.get_mut(&place) {
        one.ring(round, from, to);
    }
}

/// The clock goes on for those of some places.
fn ring_each(live: &mut IndexMap<u64, Live>, places: &[u64], round: u64, from: u64, to: u64)
    requires ordered { from ≤ to }
    requires within { to ≤ last_moment }
    ensures { AreShown round (IsRung (record { from = from; to = to })) (λ p. has_place p places.now) false
        live.old.entries live.new.entries }
{
    for place in places {
        ring_one(live, *place, round, from, to);
    }
}

/// The clock goes on for those that may have timers.
pub fn ring_timed(
    live: &mut IndexMap<u64, Live>,
    watching: &Index<Target>,
    round: u64,
    from: u64,
    to: u64,
)
    requires ordered { from ≤ to }
    requires within { to ≤ last_moment }
    ensures { AreShown round (IsRung (record { from = from; to = to }))
        (λ p. has_place p (places_of watching.now.table Own)) false live.old.entries live.new.entries }
{
    let places = watching.at(Target::Own);
    ring_each(live, places, round, from, to);
}
