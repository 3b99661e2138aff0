//! The world goes over a trace, and what is seen of it after each record is noted.

ghost use Rattle.std.specs.Prelude.{◌≡◌, ◌+◌, ◌<◌, length, OnOk};
ghost use Rattle.kq_model.specs.Objects.{counted};
ghost use Rattle.kq_model.specs.Plans.{plan};
ghost use Rattle.kq_model.specs.World as model;
ghost use Rattle.kq_process.specs.World.{last_of, world_of, IsEffectBy};
ghost use Rattle.kq_projection.specs.Noted.{AreAllUpTo};
ghost use Rattle.kq_projection.specs.Seen.{seen_by};
ghost use Rattle.kq_projection.specs.Traced.{longer, Traced};
ghost use Rattle.kq_projection.specs.Tracked.{IsFollowed, IsNoted, IsTracked};

use crate::history::seen::Seen;
use crate::history::touched::{Touched, tells_file};
use kq_model::{Event, Memory};
use kq_process::{Effect, World};

/// One record more: the world takes it, and what is seen after it is noted. The effect is written over. After Memory
/// nothing is known.
pub fn track(
    place: u64,
    event: &Event,
    world: &mut World,
    seen: &mut Seen,
    touched: &mut Touched,
    effect: &mut Effect,
) -> Result<(), Memory>
    requires places { last_of world.old < place }
    requires up_to { AreAllUpTo place seen.old }
    ensures effect { OnOk result (IsEffectBy (plan place event.now) world.old effect.new) }
    ensures tracked { OnOk result ((t : Traced) → length t.events + 1 ≡ place
        → IsTracked t world.old seen.old → IsTracked (longer t event.now) world.new seen.new) }
{
    world.apply_into(place, event, effect)?;
    follow(place, event, effect, world, seen, touched)
}

/// Notes the world after a record, where it was possible.
fn follow(
    place: u64,
    event: &Event,
    effect: &Effect,
    world: &World,
    seen: &mut Seen,
    touched: &mut Touched,
) -> Result<(), Memory>
    requires { AreAllUpTo place seen.old }
    ensures { OnOk result ((before : model.World counted)
        → IsFollowed place event.now effect.now before (world_of world.now) seen.old seen.new) }
{
    match effect.verdict {
        Err(_) => Ok(()),
        Ok(()) => note(place, event, effect, world, seen, touched),
    }
}

/// Notes of the world after a record all that the record touched.
fn note(
    place: u64,
    event: &Event,
    effect: &Effect,
    world: &World,
    seen: &mut Seen,
    touched: &mut Touched,
) -> Result<(), Memory>
    requires { AreAllUpTo place seen.old }
    ensures up_to { OnOk result (AreAllUpTo place seen.new) }
    ensures noted { OnOk result ((before : model.World counted)
        → IsNoted place event.now effect.now.closed effect.now.hints before (world_of world.now)
        (seen_by seen.old) (seen_by seen.new)) }
{
    touched.fill(event, effect, world)?;
    let tells = tells_file(effect.hints.as_slice());
    seen.note(place, tells, touched, world)
}
