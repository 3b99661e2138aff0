//! A fork: room for the knotes of a followed child, and then the kqueues hear of it.

ghost use Rattle.std.specs.Prelude.{◌≡◌, ◌+◌, ◌<◌, ◌∷◌, [], ℕ, true, false, map, nat_eq};
ghost use Rattle.std.specs.Prelude.{Err, IfOk, IsOk, OnErr, OnOk};
ghost use Rattle.kq_model.specs.declared.event.Event.TheVariants as event_of;
ghost use Rattle.kq_model.specs.declared.why.Why.{Why};
ghost use Rattle.kq_model.specs.CountedWorld.{IsCountedWorld};
ghost use Rattle.kq_model.specs.Following.{tracks};
ghost use Rattle.kq_model.specs.Kqueue.{HaveOwnKeys};
ghost use Rattle.kq_model.specs.Plans.{plan};
ghost use Rattle.kq_model.specs.ProcessPlans.{forked};
ghost use Rattle.kq_model.specs.Views as model;
ghost use Rattle.kq_model.specs.World.{views_of};
ghost use Rattle.kq_model.specs.contracts.object.TargetPartialEq.TheImpl as target_equal;
ghost use Rattle.kq_kevent.specs.Owned.{HasRoomToFollow};
ghost use Rattle.kq_process.specs.Effects.{IsPossible};
ghost use Rattle.kq_process.specs.World.{IsEffectBy, IsNext, last_of, world_of};
ghost use Rattle.kq_system.specs.Forking.{ArePrepared, AreRoomier, HaveRoom, IsFollowing, IsRoomier};
ghost use Rattle.kq_system.specs.Places.{Grows, has_place};
ghost use Rattle.kq_system.specs.Showing.{AreShown, IsPassed};
ghost use Rattle.kq_system.specs.SystemState.{live_of, followed_to, AreOfVersion, HaveStayed};

use crate::index::Index;
use crate::kqueues::Kqueues;
use crate::live::Live;
use crate::renewing::renew;
use indexmap::IndexMap;
use kq_model::{Event, Hint, Memory, Target, Views};
use kq_process::{Effect, World};
use std::alloc::Global;

impl Live {
    /// Room for the knote of any child of this process, where the kqueue follows it: whether it does.
    pub fn prepare(&mut self, pid: u32) -> Result<bool, Memory>
        ensures roomier { IsRoomier self.old self.new }
        ensures follows { IfOk result (λ follows. follows ≡ tracks pid self.new.kq.kq) }
        ensures room { OnOk result ((views : model.Views) (child : ℕ)
            → HasRoomToFollow views (forked pid child) self.new.kq) }
        ensures own_keys { OnOk result (HaveOwnKeys self.new.kq.kq.knotes) }
    {
        self.kq.reserve_fork(pid)?;
        Ok(self.kq.tracks(pid))
    }

    /// The knotes hear of a fork, and then the kqueue follows the child, where it was not shown the record
    /// in this round. It takes no memory.
    pub fn follow<V: Views>(&mut self, round: u64, hints: &[(Target, Hint)], views: &V)
        requires { (self.old.shown ≡ round → ⊥) → HasRoomToFollow (V.sees views.now) hints.now self.old.kq }
        ensures passed { IsPassed round (IsFollowing hints.now (V.sees views.now)) self.old self.new }
        ensures seen { self.new.shown ≡ round }
        ensures ended { self.new.ended ≡ self.old.ended }
    {
        if self.shown == round {
            return;
        }
        self.kq.notify(hints, views);
        self.shown = round;
    }
}

/// A process forks a child. All memory that the kqueues want is asked for before the world's step, and
/// only where the fork is possible; then those that may watch the process hear of it and follow the child.
pub fn fork_all(
    live: &mut Kqueues,
    world: &mut World,
    place: u64,
    event: &Event,
    pid: u32,
    child: u32,
) -> Result<Effect, Memory>
    requires places { last_of world.old < place }
    requires event { event.now ≡ event_of.Fork pid child }
    ensures effect { IfOk result (IsEffectBy (plan place event.now) world.old) }
    ensures world { OnOk result (IsNext place (plan place event.now) world.old world.new) }
    ensures last { OnOk result (last_of world.new ≡ place) }
    ensures memory { OnErr result (world_of world.new ≡ world_of world.old) }
    ensures same_last { OnErr result (last_of world.new ≡ last_of world.old) }
    ensures possible { OnErr result (IsPossible (plan place event.now (world_of world.old))) }
    ensures next { OnOk result (IsCountedWorld (place + 1) (world_of world.new)) }
    ensures kept { OnErr result (map live_of live.new.entries ≡ map live_of live.old.entries) }
    ensures refused { IfOk result (λ e. (why : Why) → e.verdict ≡ Err why
        → map live_of live.new.entries ≡ map live_of live.old.entries) }
    ensures followed { IfOk result (λ e. IsOk e.verdict → (version : ℕ) → AreOfVersion version live.old.entries
        → map live_of live.new.entries
        ≡ map (followed_to version (forked pid child) (views_of (world_of world.new)))
        (map live_of live.old.entries)) }
    ensures stayed { HaveStayed live.old.entries live.new.entries }
{
    if !world.can_fork(pid, child) {
        return world.apply(place, event);
    }
    renew(live)?;
    live.ready = None;
    // `len` is called for the prover alone: its contract says that each place is there once.
    let _count = live.live.len();
    let round = next_after(live.round)?;
    let places = copy_of(
        live.watching.at(Target::Process(pid)),
        *live.live.allocator(),
    )?;
    prepare_each(
        &mut live.live,
        &mut live.watching,
        places.as_slice(),
        pid,
        child,
    )?;
    let effect = world.apply(place, event)?;
    follow_each(
        &mut live.live,
        places.as_slice(),
        round,
        effect.hints.as_slice(),
        world,
    );
    live.round = round;
    Ok(effect)
}

/// The round after this one. That there is none left is as if memory was missing.
fn next_after(round: u64) -> Result<u64, Memory>
    ensures { IfOk result (λ next. round < next) }
{
    round.checked_add(1).ok_or(Memory)
}

/// These places in memory of their own.
fn copy_of(places: &[u64], alloc: Global) -> Result<Vec<u64>, Memory>
    ensures { IfOk result (λ copy. copy.items ≡ places.now) }
{
    Ok(Vec::from_slice(alloc, places)?)
}

/// Room for the knotes of a child in the kqueues of these places, which are found for the child from here
/// on where they follow its parent. It changes nothing else.
fn prepare_each(
    live: &mut IndexMap<u64, Live>,
    watching: &mut Index<Target>,
    places: &[u64],
    pid: u32,
    child: u32,
) -> Result<(), Memory>
    ensures grows { Grows target_equal.eq-value.it watching.old.table watching.new.table }
    ensures roomier { AreRoomier live.old.entries live.new.entries }
    ensures prepared { OnOk result (ArePrepared pid child watching.new.table places.now live.new.entries) }
{
    for place in places {
        prepare_one(live, watching, *place, pid, child)?;
    }
    Ok(())
}

/// Room for the knote of a child in the kqueue of a place, where there is one, which is found for the child from
/// here on where it follows its parent.
fn prepare_one(
    live: &mut IndexMap<u64, Live>,
    watching: &mut Index<Target>,
    place: u64,
    pid: u32,
    child: u32,
) -> Result<(), Memory>
    ensures grows { Grows target_equal.eq-value.it watching.old.table watching.new.table }
    ensures roomier { AreRoomier live.old.entries live.new.entries }
    ensures prepared { OnOk result (ArePrepared pid child watching.new.table (place ∷ []) live.new.entries) }
{
    let Some(one) = live.get_mut(&place) else {
        return Ok(());
    };
    let follows = one.prepare(pid)?;
    if !follows {
        return Ok(());
    }
    watching.add(Target::Process(child), place)
}

/// The kqueue of a place, where there is one, hears of a fork in this round, and follows the child.
fn follow_one<V: Views>(
    live: &mut IndexMap<u64, Live>,
    place: u64,
    round: u64,
    hints: &[(Target, Hint)],
    views: &V,
)
    requires { HaveRoom hints.now (V.sees views.now) round (place ∷ []) live.old.entries }
    ensures { AreShown round (IsFollowing hints.now (V.sees views.now)) (λ p. nat_eq p place) false
        live.old.entries live.new.entries }
{
    if let Some(one) = live.get_mut(&place) {
        one.follow(round, hints, views);
    }
}

/// The kqueues of these places hear of a fork in this round, and follow the child. It takes no memory.
fn follow_each<V: Views>(
    live: &mut IndexMap<u64, Live>,
    places: &[u64],
    round: u64,
    hints: &[(Target, Hint)],
    views: &V,
)
    requires { HaveRoom hints.now (V.sees views.now) round places.now live.old.entries }
    ensures { AreShown round (IsFollowing hints.now (V.sees views.now)) (λ p. has_place p places.now) false
        live.old.entries live.new.entries }
{
    for place in places {
        follow_one(live, *place, round, hints, views);
    }
}
