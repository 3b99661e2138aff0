//! A kevent call of the system in two steps, with a look at its kqueue between them.

ghost use Rattle.std.specs.Prelude.{◌≡◌, ◌+◌, ◌-◌, ◌^◌, ◌<◌, [], None, Some, IfOk, IsOk};
ghost use Rattle.std.specs.Prelude.{OnErr, MatchOption};
ghost use Rattle.std.specs.Option.{option_map};
ghost use Rattle.kq_model.specs.declared.event.Event.TheVariants as event_of;
ghost use Rattle.kq_model.specs.Hearing.{listed};
ghost use Rattle.kq_model.specs.Objects as objects;
ghost use Rattle.kq_model.specs.Plans.{plan};
ghost use Rattle.kq_model.specs.Recast.{IsTalliedStep, tallied_system};
ghost use Rattle.kq_model.specs.System as model;
ghost use Rattle.kq_model.specs.System.{step};
ghost use Rattle.kq_model.specs.Tallied.{Live};
ghost use Rattle.kq_model.specs.WatchedNumbers.{AllWatchTheirNumbers};
ghost use Rattle.kq_process.specs.Effects.{IsPossible};
ghost use Rattle.kq_process.specs.World.{world_of};
ghost use Rattle.kq_system.specs.Beginning.{arranged_in, arranged_live, begun, live_named, owner_of, IsBeginning};
ghost use Rattle.kq_system.specs.Beginning.{IsBegunOf, IsLiveOne, IsReadOf, IsStepSoFar, IsTalliedBeginning};
ghost use Rattle.kq_system.specs.SystemState.{IsImpossible, IsStep, IsUnchanged, system_of};

use crate::System;
use crate::beginning::{begin_on, kqueue_at, put_first_in};
use crate::system::kqueue_named;
use kq_kevent::Kq;
use kq_model::{Change, Key, Memory, Reply};
use kq_process::World;

impl System {
    /// The world: processes, descriptors, objects and the clock. It is what the knotes of all kqueues see.
    pub fn world(&self) -> &World
        ensures { result.now ≡ self.now.world }
    {
        &self.world
    }

    /// The live kqueue that a number of a process names; none where the number names no kqueue.
    pub fn kqueue(&self, pid: u32, fd: u32) -> Option<&Kq>
        ensures { MatchOption result
            (live_named pid fd (system_of self.now) ≡ None)
            (λ kq. IsLiveOne (live_named pid fd (system_of self.now)) self.now.version kq.now) }
    {
        let Some(kqueue) = kqueue_named(self.world.descriptor(pid, fd)) else {
            return None;
        };
        kqueue_at(&self.live, kqueue)
    }

    /// The first step of a kevent call, which takes the next place as [`System::apply`] does: its changes,
    /// and its answer where it reads no events, also that it is impossible. None where it goes on to
    /// [`System::read_events`]; what is done to the system meanwhile is done after the changes.
    ///
    /// After [`Memory`] nothing has changed; a call that is impossible takes no memory.
    pub fn begin_call(
        &mut self,
        pid: u32,
        fd: u32,
        changes: &[Change],
        room: u32,
    ) -> Result<Option<Reply>, Memory>
        requires { self.old.applied < 2 ^ 31 - 1 }
        ensures begun { IfOk result (IsBeginning (self.old.applied + 1)
            (event_of.Kevent pid fd changes.now room) (system_of self.old) (system_of self.new)) }

        // That is for the kqueue which the number names.
        ensures kqueue { IfOk result (λ answer. (l : Live) → live_named pid fd (system_of self.old) ≡ Some l
            → IsBegunOf (owner_of (system_of self.old) l) room changes.now l
            (live_named pid fd (system_of self.new)) answer) }

        // With `read_events` behind it, where there is no answer yet, this is what `apply` does.
        ensures steps { IfOk result (IsStepSoFar (self.old.applied + 1) pid fd changes.now room
            (system_of self.old) (system_of self.new)) }

        // The same in the words of the definitions, which keep all that was recorded and heard.
        ensures model { IfOk result (λ answer. (m : model.System listed objects.listed)
            → system_of self.old ≡ tallied_system m
            → IsTalliedBeginning (system_of self.new) answer
            (begun (self.old.applied + 1) (event_of.Kevent pid fd changes.now room) m)) }

        ensures watched { AllWatchTheirNumbers (system_of self.new) }
        ensures applied { IfOk result (λ _. self.new.applied ≡ self.old.applied + 1) }
        ensures memory { OnErr result (IsUnchanged self.old self.new) }
        ensures impossible { IsImpossible (self.old.applied + 1)
            (event_of.Kevent pid fd changes.now room) (system_of self.old) → IsOk result }
    {
        let answer = self.begin(pid, fd, changes, room);
        self.watch_their_numbers();
        answer
    }

    fn begin(
        &mut self,
        pid: u32,
        fd: u32,
        changes: &[Change],
        room: u32,
    ) -> Result<Option<Reply>, Memory>
        requires { self.old.applied < 2 ^ 31 - 1 }
        ensures begun { IfOk result (IsBeginning (self.old.applied + 1)
            (event_of.Kevent pid fd changes.now room) (system_of self.old) (system_of self.new)) }
        ensures steps { IfOk result (IsStepSoFar (self.old.applied + 1) pid fd changes.now room
            (system_of self.old) (system_of self.new)) }
        ensures applied { IfOk result (λ _. self.new.applied ≡ self.old.applied + 1) }
        ensures memory { OnErr result (IsUnchanged self.old self.new) }
        ensures possible { OnErr result (IsPossible (plan (self.old.applied + 1)
            (event_of.Kevent pid fd changes.now room) (world_of self.old.world))) }
    {
        let place = self.applied + 1;
        let effect = self.world.kevent(pid, fd, changes, room);
        if let Err(why) = effect.verdict {
            self.applied = place;
            return Ok(Some(Reply::Impossible(why)));
        }
        let Some(kqueue) = kqueue_named(self.world.descriptor(pid, fd)) else {
            unreachable!();
        };
        let answer = begin_on(&mut self.live, kqueue, changes, room, &self.world)?;
        self.applied = place;
        Ok(answer)
    }

    /// The second step of a kevent call, at the place that the first one took: at most `room` pending
    /// events of the kqueue that the number names, in the order of its queue as it stands. It is the step
    /// of a call without changes, but takes no place.
    ///
    /// After [`Memory`] nothing has changed; a call that is impossible takes no memory.
    pub fn read_events(&mut self, pid: u32, fd: u32, room: u32) -> Result<Reply, Memory>
        ensures reply { IfOk result (IsStep self.old.applied
            (event_of.Kevent pid fd [] room) (system_of self.old) (system_of self.new)) }

        // That is for the kqueue which the number names.
        ensures kqueue { IfOk result (λ reply. (l : Live) → live_named pid fd (system_of self.old) ≡ Some l
            → IsReadOf (owner_of (system_of self.old) l).views room l
            (live_named pid fd (system_of self.new)) reply) }

        // The same in the words of the definitions, which keep all that was recorded and heard.
        ensures model { IfOk result (λ reply. (m : model.System listed objects.listed)
            → system_of self.old ≡ tallied_system m
            → IsTalliedStep (system_of self.new) reply (step self.old.applied (event_of.Kevent pid fd [] room) m)) }

        ensures watched { AllWatchTheirNumbers (system_of self.new) }
        ensures applied { self.new.applied ≡ self.old.applied }
        ensures memory { OnErr result (IsUnchanged self.old self.new) }
        ensures impossible { IsImpossible self.old.applied
            (event_of.Kevent pid fd [] room) (system_of self.old) → IsOk result }
    {
        let reply = self.call_kqueue(pid, fd, &[], room);
        self.watch_their_numbers();
        reply
    }

    /// Puts these keys first in the queue of the kqueue that a number of a process names, in this order,
    /// and the others behind them as they stood, by `Kq::put_first`; nothing where it names no kqueue.
    pub fn put_first(&mut self, pid: u32, fd: u32, keys: &[Key])
        ensures system { system_of self.new ≡ arranged_in pid fd keys.now (system_of self.old) }

        // That is for the kqueue which the number names.
        ensures kqueue { live_named pid fd (system_of self.new)
            ≡ option_map (arranged_live keys.now) (live_named pid fd (system_of self.old)) }

        // The same in the words of the definitions, which keep all that was recorded and heard.
        ensures model { (m : model.System listed objects.listed) → system_of self.old ≡ tallied_system m
            → system_of self.new ≡ tallied_system (arranged_in pid fd keys.now m) }

        ensures watched { AllWatchTheirNumbers (system_of self.new) }
        ensures applied { self.new.applied ≡ self.old.applied }
    {
        self.arrange(pid, fd, keys);
        self.watch_their_numbers();
    }

    fn arrange(&mut self, pid: u32, fd: u32, keys: &[Key])
        ensures system { system_of self.new ≡ arranged_in pid fd keys.now (system_of self.old) }
        ensures applied { self.new.applied ≡ self.old.applied }
    {
        if let Some(kqueue) = kqueue_named(self.world.descriptor(pid, fd)) {
            put_first_in(&mut self.live, kqueue, keys);
        }
    }
}
