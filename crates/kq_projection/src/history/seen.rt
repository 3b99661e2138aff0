//! What was seen of the world after each record: named numbers, views of targets, the clock.

ghost use Rattle.std.specs.Prelude.{◌≡◌, ◌≤◌, ◌++◌, ◌&&◌, ℕ, nat_le, None, OnOk};
ghost use Rattle.std.specs.Prelude.{if◌then◌else◌};
ghost use Rattle.std.specs.List.{flat_map};
ghost use Rattle.kq_model.specs.Ticks.{last_moment};
ghost use Rattle.kq_model.specs.Views as model;
ghost use Rattle.kq_model.specs.World.{views_of};
ghost use Rattle.kq_process.specs.World.{world_of};
ghost use Rattle.kq_projection.specs.Keys.{pair_eq, target_key};
ghost use Rattle.kq_projection.specs.Noted.{AreAllUpTo, IsNextWorld};
ghost use Rattle.kq_projection.specs.Seen.{left_at, IsBlank, seen_by, Shows};
ghost use Rattle.kq_projection.specs.Timeline.{value_at};
ghost use Rattle.kq_projection.specs.Timelines.{marks_at, AreUpTo};
ghost use Rattle.kq_projection.specs.Touched.{has_number, has_target, left_of, AreAmong};

use crate::history::timeline::Timeline;
use crate::history::timelines::Timelines;
use crate::history::touched::{Touched, add_left};
use kq_model::{Memory, Named, Target, View};
use kq_process::World;
use std::alloc::Global;

/// What was seen of the world after each record: what numbers named, the views of targets, and the clock.
#[derive(Drop)]
pub struct Seen {
    pub(crate) numbers: Timelines<(u32, u32), Option<Named>>,
    pub(crate) views: Timelines<Target, Option<View>>,
    pub(crate) clock: Timeline<u64>,
}

impl Seen {
    /// Of no record: the empty world.
    pub fn new(alloc: Global) -> Self
        ensures { IsBlank result }
    {
        Seen {
            numbers: Timelines::new(alloc),
            views: Timelines::new(alloc),
            clock: Timeline::new(alloc),
        }
    }

    /// What is seen of a target after a place.
    pub fn view(&self, place: u64, target: Target) -> Option<View>
        ensures { result ≡ (seen_by self.now place).view target }
    {
        self.views.at(target, place, None)
    }

    /// What a number of a process names after a place.
    pub fn descriptor(&self, place: u64, pid: u32, number: u32) -> Option<Named>
        ensures { result ≡ (seen_by self.now place).descriptor pid number }
    {
        self.numbers.at((pid, number), place, None)
    }

    /// The clock after a place, in ns.
    pub fn now(&self, place: u64) -> u64
        ensures { result ≡ (seen_by self.now place).now }
    {
        self.clock.at(place, 0)
    }

    /// Notes the world after the record of a place: of the numbers that the record touched, what they name; of the
    /// targets that it touched, to which it adds what may have ended of those that these numbers named; and of the
    /// clock. `tells` is whether it told a file. After Memory nothing is known.
    pub fn note(
        &mut self,
        place: u64,
        tells: bool,
        touched: &mut Touched,
        world: &World,
    ) -> Result<(), Memory>
        requires { AreAllUpTo place self.old }
        ensures up_to { OnOk result (AreAllUpTo place self.new) }
        ensures shows { OnOk result ((before : model.Views) (worlds next : ℕ → model.Views)
            → IsNextWorld place before (views_of (world_of world.now)) touched.old.numbers.items
            (flat_map (left_of tells before) touched.old.numbers.items ++ touched.old.targets.items) worlds next
            → Shows worlds (seen_by self.old) → Shows next (seen_by self.new)) }
    {
        let numbers = touched.numbers.as_slice();
        note_numbers(
            &mut self.numbers,
            place,
            numbers,
            tells,
            &mut touched.targets,
            world,
        )?;
        note_targets(&mut self.views, place, touched.targets.as_slice(), world)?;
        self.clock.note(place, 0, moment_of(world))?;
        Ok(())
    }
}

/// The moment at which the clock is.
#[tactic(auto, unfolding(kq_model::specs::World::views_of))]
fn moment_of(world: &World) -> u64
    ensures moment { result ≡ (views_of (world_of world.now)).now }
    ensures within { (views_of (world_of world.now)).now ≤ last_moment }
{
    world.now() as u64
}

/// What these numbers name, and the targets that may have ended of those that they named before the place.
fn note_numbers(
    timelines: &mut Timelines<(u32, u32), Option<Named>>,
    place: u64,
    numbers: &[(u32, u32)],
    tells: bool,
    targets: &mut Vec<Target>,
    world: &World,
) -> Result<(), Memory>
    requires { AreUpTo pair_eq place timelines.old.table }
    ensures up_to { OnOk result (AreUpTo pair_eq place timelines.new.table) }
    ensures noted { OnOk result ((pid number at : ℕ)
        → value_at at None (marks_at pair_eq timelines.new.table (pid, number))
        ≡ (if has_number pid number numbers.now && nat_le place at
        then (views_of (world_of world.now)).descriptor pid number
        else value_at at None (marks_at pair_eq timelines.old.table (pid, number)))) }
    ensures named { OnOk result (AreAmong
        (flat_map (left_at timelines.old.table place tells) numbers.now ++ targets.old.items) targets.new.items) }
{
    for number in numbers {
        let named = world.descriptor(number.0, number.1);
        let had = timelines.note(*number, place, None, named)?;
        add_left(targets, tells, had)?;
    }
    Ok(())
}

/// What is seen of these targets.
fn note_targets(
    timelines: &mut Timelines<Target, Option<View>>,
    place: u64,
    targets: &[Target],
    world: &World,
) -> Result<(), Memory>
    requires { AreUpTo target_key place timelines.old.table }
    ensures up_to { OnOk result (AreUpTo target_key place timelines.new.table) }
    ensures noted { OnOk result ((t : Target) (at : ℕ)
        → value_at at None (marks_at target_key timelines.new.table t)
        ≡ (if has_target t targets.now && nat_le place at then (views_of (world_of world.now)).view t
        else value_at at None (marks_at target_key timelines.old.table t))) }
{
    for target in targets {
        timelines.note(*target, place, None, world.view(*target))?;
    }
    Ok(())
}
