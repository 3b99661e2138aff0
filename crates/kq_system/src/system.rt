//! The simulated system, and its step for each record.

ghost use Rattle.std.specs.Prelude.{◌≡◌, ◌+◌, ◌-◌, ◌^◌, ◌<◌, ℕ, Bool, true, false, Option, None, Some, IfOk};
ghost use Rattle.std.specs.Prelude.{IfSome, IsOk, List, OnErr, OnOk};
ghost use Rattle.kq_model.specs.declared.object.Named.TheVariants as named_as;
ghost use Rattle.kq_process.specs.World.{world_of};

use crate::all_live::{bear, call_on, happen_to_all, reserve_one, tick_all};
use crate::following::fork_all;
use crate::kqueues::Kqueues;
use kq_model::{Change, Event, Memory, Named, Reply, Version};
use kq_process::{Effect, World};
use std::alloc::Global;
use std::marker::Model;

/// The simulated system: a world, and the live kqueues in order of birth. Each READ, WRITE or VNODE knote
/// watches what its number names.
#[derive(Drop)]
pub struct System {
    version: Version,
    pub(crate) world: World,
    pub(crate) live: Kqueues,
    pub(crate) applied: u64,
    /// What the last record did: its lists serve the next one.
    effect: Effect,
}

impl Model for System {
    ghost use Rattle.std.specs.Coded.{codes};
    ghost use Rattle.kq_process.specs.contracts.world.World as code;
    ghost use Rattle.kq_system.specs.SystemState.{IsLawful, SystemState, state_of};

    ghost Value = { SystemState };

    ghost coded = { Prim.hlevel (codes, code.the_row.coded) };

    ghost view = { λ s. state_of s.version s.world s.live.entries s.applied };

    ghost invariant = { λ s. IsLawful s.version s.applied s.world s.live.entries };
}

impl System {
    ghost use Rattle.kq_model.specs.Limits.{IsVersion};
    ghost use Rattle.kq_model.specs.Recast.{tallied_system};
    ghost use Rattle.kq_model.specs.System.{empty_system};
    ghost use Rattle.kq_system.specs.SystemState.{system_of};

    /// The system before the first record of a trace of this version, which is 1 or 2.
    pub fn new(alloc: Global, version: u32) -> Result<Self, Memory>
        requires { IsVersion version }
        ensures system { IfOk result (λ s. system_of s ≡ empty_system version) }
        ensures applied { IfOk result (λ s. s.applied ≡ 0) }

        // It stands for the empty system that keeps all that was recorded and heard.
        ensures model { IfOk result (λ s. system_of s ≡ tallied_system (empty_system version)) }
    {
        System::empty(alloc, version)
    }

    /// Makes the system before the first record. It is apart from `new` for the prover alone, so that what its
    /// contract says is known where `new` says more.
    fn empty(alloc: Global, version: u32) -> Result<Self, Memory>
        requires { IsVersion version }
        ensures system { IfOk result (λ s. system_of s ≡ empty_system version) }
        ensures applied { IfOk result (λ s. s.applied ≡ 0) }
    {
        Ok(System {
            version: Version::new(version),
            world: World::new(alloc)?,
            live: Kqueues::new(alloc),
            applied: 0,
            effect: Effect::new(alloc),
        })
    }

    /// How many events were applied.
    pub fn applied(&self) -> u64
        ensures { result ≡ self.now.applied }
    {
        self.applied
    }
}

/// The kqueue that a number names.
pub fn kqueue_named(named: Option<Named>) -> Option<u64>
    ensures found { IfSome result (λ kqueue. named ≡ Some (named_as.Kqueue kqueue)) }
    ensures none { result ≡ None → (kqueue : ℕ) → named ≡ Some (named_as.Kqueue kqueue) → ⊥ }
{
    match named {
        Some(Named::Kqueue(kqueue)) => Some(kqueue),
        _ => None,
    }
}

/// The clock of a world, in nanoseconds.
fn clock_of(world: &World) -> u64
    ensures { result ≡ (world_of world.now).now }
{
    world.now() as u64
}

impl System {
    ghost use Rattle.kq_model.specs.declared.event.Event.{Event};
    ghost use Rattle.kq_model.specs.declared.event.Event.TheVariants as event_of;
    ghost use Rattle.kq_model.specs.ClosedNumbers.{ClosesAll};
    ghost use Rattle.kq_model.specs.DescriptorPlans.{plan_kqueue};
    ghost use Rattle.kq_model.specs.Hearing.{listed};
    ghost use Rattle.kq_model.specs.Objects as objects;
    ghost use Rattle.kq_model.specs.Plans.{plan};
    ghost use Rattle.kq_model.specs.Recast.{IsTalliedStep, tallied_system};
    ghost use Rattle.kq_model.specs.System as model;
    ghost use Rattle.kq_model.specs.System.{empty_system, step, system_after};
    ghost use Rattle.kq_model.specs.VersionOne as one;
    ghost use Rattle.kq_model.specs.WatchedNumbers.{AllWatchTheirNumbers};
    ghost use Rattle.kq_model.specs.World.{Plan, Possible};
    ghost use Rattle.kq_process.specs.Effects.{IsPossible};
    ghost use Rattle.kq_system.specs.Sharing.{IsOwnShare, IsStepBeside};
    ghost use Rattle.kq_system.specs.SystemState.{IsImpossible, IsPlain, IsStep, IsUnchanged, system_of};

    /// Applies one event, and gives the reply to it. A record that is possible changes the world, then
    /// closes, then tells the knotes, which see the world after the whole record.
    ///
    /// After [`Memory`] nothing has changed; a record that is impossible takes no memory.
    pub fn apply(&mut self, event: &Event) -> Result<Reply, Memory>
        requires { self.old.applied < 2 ^ 31 - 1 }
        ensures reply { IfOk result
            (IsStep (self.old.applied + 1) event.now (system_of self.old) (system_of self.new)) }

        // The same in the words of the definitions, which keep all that was recorded and heard.
        ensures model { IfOk result (λ reply. (m : model.System listed objects.listed)
            → system_of self.old ≡ tallied_system m
            → IsTalliedStep (system_of self.new) reply (step (self.old.applied + 1) event.now m)) }

        // In version 1 of the trace's format this is the reply that it gave while it had no other.
        ensures version_one { IfOk result (λ reply. (events : List Event)
            → system_of self.old ≡ tallied_system (system_after 1 (empty_system {k = objects.listed} 1) events)
            → reply ≡ one.reply_after events (self.old.applied + 1) event.now) }

        // No kqueue keeps a knote of a number that was closed, also where a duplicate stays open.
        ensures closed { OnOk result
            (ClosesAll (self.old.applied + 1) event.now (system_of self.old) (system_of self.new)) }

        // Each READ, WRITE or VNODE knote of each kqueue watches what its number names now.
        ensures watched { AllWatchTheirNumbers (system_of self.new) }
        ensures applied { IfOk result (λ _. self.new.applied ≡ self.old.applied + 1) }
        ensures memory { OnErr result (IsUnchanged self.old self.new) }
        ensures impossible { IsImpossible (self.old.applied + 1) event.now (system_of self.old) → IsOk result }
    {
        let reply = self.step(event);
        self.watch_their_numbers();
        reply
    }

    /// Does nothing. It is for the prover alone, which is told by it what the type keeps of READ, WRITE and VNODE
    /// knotes.
    pub(crate) fn watch_their_numbers(&self)
        ensures { AllWatchTheirNumbers (system_of self.now) }
    {
        let _ = &self.world;
    }

    fn step(&mut self, event: &Event) -> Result<Reply, Memory>
        requires { self.old.applied < 2 ^ 31 - 1 }
        ensures reply { IfOk result
            (IsStep (self.old.applied + 1) event.now (system_of self.old) (system_of self.new)) }
        ensures applied { IfOk result (λ _. self.new.applied ≡ self.old.applied + 1) }
        ensures memory { OnErr result (IsUnchanged self.old self.new) }
        ensures possible { OnErr result (IsPossible (plan (self.old.applied + 1) event.now (world_of self.old.world))) }
    {
        match event {
            Event::Kqueue { pid, fd } => self.open(event, *pid, *fd),
            Event::Kevent {
                pid,
                fd,
                changes,
                room,
            } => self.call(*pid, *fd, changes.as_slice(), *room),
            Event::Clock { ns } => self.tick(event, *ns),
            Event::Fork { pid, child } => self.fork(event, *pid, *child),
            _ => self.happen(event),
        }
    }

    /// The clock goes on to a moment, in nanoseconds, and the timers ring that expire until then.
    fn tick(&mut self, event: &Event, moment: i64) -> Result<Reply, Memory>
        requires applied { self.old.applied < 2 ^ 31 - 1 }
        requires event { event.now ≡ event_of.Clock moment }
        ensures reply { IfOk result
            (IsStep (self.old.applied + 1) event.now (system_of self.old) (system_of self.new)) }
        ensures applied { IfOk result (λ _. self.new.applied ≡ self.old.applied + 1) }
        ensures memory { OnErr result (IsUnchanged self.old self.new) }
        ensures possible { OnErr result (IsPossible (plan (self.old.applied + 1) event.now (world_of self.old.world))) }
    {
        let place = self.applied + 1;
        let from = clock_of(&self.world);
        self.world.apply_into(place, event, &mut self.effect)?;
        self.applied = place;
        if let Err(why) = self.effect.verdict {
            return Ok(Reply::Impossible(why));
        }
        let to = clock_of(&self.world);
        tick_all(&mut self.live, from, to);
        Ok(Reply::Done)
    }

    /// A record that opens no kqueue, calls none and does not move the clock.
    fn happen(&mut self, event: &Event) -> Result<Reply, Memory>
        requires applied { self.old.applied < 2 ^ 31 - 1 }
        requires plain { IsPlain event.now }
        requires no_fork { (pid child : ℕ) → event.now ≡ event_of.Fork pid child → ⊥ }
        ensures reply { IfOk result
            (IsStep (self.old.applied + 1) event.now (system_of self.old) (system_of self.new)) }
        ensures applied { IfOk result (λ _. self.new.applied ≡ self.old.applied + 1) }
        ensures memory { OnErr result (IsUnchanged self.old self.new) }
        ensures possible { OnErr result (IsPossible (plan (self.old.applied + 1) event.now (world_of self.old.world))) }
    {
        let place = self.applied + 1;
        self.world.apply_into(place, event, &mut self.effect)?;
        self.applied = place;
        if let Err(why) = self.effect.verdict {
            return Ok(Reply::Impossible(why));
        }
        happen_to_all(
            &mut self.live,
            self.effect.closed.as_slice(),
            self.effect.hints.as_slice(),
            &self.world,
        );
        Ok(Reply::Done)
    }

    /// A process forks a child, which the knotes follow that track the process. All memory is asked for
    /// before the world's step.
    fn fork(&mut self, event: &Event, pid: u32, child: u32) -> Result<Reply, Memory>
        requires applied { self.old.applied < 2 ^ 31 - 1 }
        requires event { event.now ≡ event_of.Fork pid child }
        ensures reply { IfOk result
            (IsStep (self.old.applied + 1) event.now (system_of self.old) (system_of self.new)) }
        ensures applied { IfOk result (λ _. self.new.applied ≡ self.old.applied + 1) }
        ensures memory { OnErr result (IsUnchanged self.old self.new) }
        ensures possible { OnErr result (IsPossible (plan (self.old.applied + 1) event.now (world_of self.old.world))) }
    {
        let place = self.applied + 1;
        let effect = fork_all(&mut self.live, &mut self.world, place, event, pid, child)?;
        self.applied = place;
        if let Err(why) = effect.verdict {
            return Ok(Reply::Impossible(why));
        }
        Ok(Reply::Done)
    }

    /// Whether the process is live and the number is not open.
    fn can_open(&self, pid: u32, number: u32) -> bool
        ensures opens { (p : Plan) → plan_kqueue pid number (world_of self.now.world) ≡ Possible p
            → result ≡ true }
        ensures possible { result ≡ true → IsPossible (plan_kqueue pid number (world_of self.now.world)) }
    {
        self.world.is_live(pid) && self.world.descriptor(pid, number).is_none()
    }

    /// A process opens a kqueue under a number that is not open.
    fn open(&mut self, event: &Event, pid: u32, number: u32) -> Result<Reply, Memory>
        requires applied { self.old.applied < 2 ^ 31 - 1 }
        requires event { event.now ≡ event_of.Kqueue pid number }
        ensures reply { IfOk result
            (IsStep (self.old.applied + 1) event.now (system_of self.old) (system_of self.new)) }
        ensures applied { IfOk result (λ _. self.new.applied ≡ self.old.applied + 1) }
        ensures memory { OnErr result (IsUnchanged self.old self.new) }
        ensures possible { OnErr result (IsPossible (plan (self.old.applied + 1) event.now (world_of self.old.world))) }
    {
        let place = self.applied + 1;
        let opens = self.can_open(pid, number);
        reserve_one(&mut self.live, opens, place, pid)?;
        let effect = self.world.apply(place, event)?;
        self.applied = place;
        if let Err(why) = effect.verdict {
            return Ok(Reply::Impossible(why));
        }
        bear(&mut self.live, self.version, place, pid, number);
        Ok(Reply::Done)
    }

    /// A process opens a kqueue that is of another share, which is the world's step alone.
    pub(crate) fn pass(&mut self, event: &Event, pid: u32, number: u32) -> Result<Reply, Memory>
        requires applied { self.old.applied < 2 ^ 31 - 1 }
        requires event { event.now ≡ event_of.Kqueue pid number }
        ensures reply { IfOk result (λ reply. (own : Option ℕ → Bool) → own (Some (self.old.applied + 1)) ≡ false
            → IsOwnShare own (system_of self.old)
            → IsStepBeside own (self.old.applied + 1) event.now (system_of self.old) (system_of self.new) reply) }
        ensures applied { IfOk result (λ _. self.new.applied ≡ self.old.applied + 1) }
        ensures memory { OnErr result (IsUnchanged self.old self.new) }
        ensures possible { OnErr result (IsPossible (plan (self.old.applied + 1) event.now (world_of self.old.world))) }
    {
        let place = self.applied + 1;
        self.world.apply_into(place, event, &mut self.effect)?;
        self.applied = place;
        if let Err(why) = self.effect.verdict {
            return Ok(Reply::Impossible(why));
        }
        Ok(Reply::Done)
    }

    /// A process calls kevent(2).
    fn call(
        &mut self,
        pid: u32,
        number: u32,
        changes: &[Change],
        room: u32,
    ) -> Result<Reply, Memory>
        requires { self.old.applied < 2 ^ 31 - 1 }
        ensures reply { IfOk result (IsStep (self.old.applied + 1)
            (event_of.Kevent pid number changes.now room) (system_of self.old) (system_of self.new)) }
        ensures applied { IfOk result (λ _. self.new.applied ≡ self.old.applied + 1) }
        ensures memory { OnErr result (IsUnchanged self.old self.new) }
        ensures possible { OnErr result (IsPossible (plan (self.old.applied + 1)
            (event_of.Kevent pid number changes.now room) (world_of self.old.world))) }
    {
        let reply = self.call_kqueue(pid, number, changes, room)?;
        self.applied += 1;
        Ok(reply)
    }

    /// A process calls kevent(2), and no place is taken: whatever place it is at, this is the step of such a
    /// call.
    pub(crate) fn call_kqueue(
        &mut self,
        pid: u32,
        number: u32,
        changes: &[Change],
        room: u32,
    ) -> Result<Reply, Memory>
        ensures reply { IfOk result (λ reply. (place : ℕ) → IsStep place
            (event_of.Kevent pid number changes.now room) (system_of self.old) (system_of self.new) reply) }
        ensures applied { self.new.applied ≡ self.old.applied }
        ensures memory { OnErr result (IsUnchanged self.old self.new) }
        ensures possible { OnErr result ((place : ℕ) → IsPossible (plan place
            (event_of.Kevent pid number changes.now room) (world_of self.old.world))) }
    {
        let effect = self.world.kevent(pid, number, changes, room);
        if let Err(why) = effect.verdict {
            return Ok(Reply::Impossible(why));
        }
        let Some(kqueue) = kqueue_named(self.world.descriptor(pid, number)) else {
            unreachable!();
        };
        call_on(&mut self.live, kqueue, changes, room, &self.world)
    }
}
