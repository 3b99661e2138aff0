//! What is asked of one live kqueue of the system. Nothing is changed.
ghost use Rattle.std.specs.Prelude.{◌≡◌, ◌≤◌, [], None, Some, IfErr, IfOk, MatchOption, OnOk};
ghost use Rattle.kq_model.specs.DescriptorPlans.{plan_kevent};
ghost use Rattle.kq_model.specs.Ticks.{last_moment};
ghost use Rattle.kq_model.specs.World.{Impossible, views_of};
ghost use Rattle.kq_process.specs.Effects.{IsPossible};
ghost use Rattle.kq_process.specs.World.{world_of};
ghost use Rattle.kq_system.specs.Asked.{IsNextIn, pending_in, registered_in};
ghost use Rattle.kq_system.specs.Beginning.{live_named, IsLiveOne};
ghost use Rattle.kq_system.specs.SystemState.{system_of};

use crate::System;
use kq_kevent::Kq;
use kq_knote::Knote;
use kq_model::{Key, Why};
use kq_process::World;

/// The clock of a world, in nanoseconds.
fn moment_of(world: &World) -> u64
    ensures now { result ≡ (world_of world.now).now }
    ensures within { result ≤ last_moment }
{
    world.now() as u64
}

impl System {
    /// The live kqueue that a number of a process names, or why a call of kevent(2) by it is impossible, with no
    /// changes and this room.
    fn called(&self, pid: u32, fd: u32, room: u32) -> Result<Option<&Kq>, Why>
        ensures refused { IfErr result (λ why. plan_kevent pid fd [] room (world_of self.now.world) ≡ Impossible why) }
        ensures possible { OnOk result (IsPossible (plan_kevent pid fd [] room (world_of self.now.world))) }
        ensures kqueue { IfOk result (λ found. MatchOption found
            (live_named pid fd (system_of self.now) ≡ None)
            (λ kq. IsLiveOne (live_named pid fd (system_of self.now)) self.now.version kq.now)) }
    {
        let effect = self.world.kevent(pid, fd, &[], room);
        if let Err(why) = effect.verdict {
            return Err(why);
        }
        Ok(self.kqueue(pid, fd))
    }

    /// The first moment after the clock's at which a timer expires in the kqueue that a number of a process names;
    /// none where no timer does. Or why a call of kevent(2) by this number is impossible.
    pub fn next_expiry(&self, pid: u32, fd: u32) -> Result<Option<u64>, Why>
        ensures next { IfOk result
            (IsNextIn (world_of self.now.world).now (live_named pid fd (system_of self.now))) }
        ensures refused { IfErr result (λ why. plan_kevent pid fd [] 0 (world_of self.now.world) ≡ Impossible why) }
        ensures possible { OnOk result (IsPossible (plan_kevent pid fd [] 0 (world_of self.now.world))) }
    {
        let found = self.called(pid, fd, 0)?;
        let Some(kq) = found else {
            return Ok(None);
        };
        Ok(kq.next_expiry(moment_of(&self.world)))
    }

    /// How many events a call of kevent(2) with no changes and this room would take now out of the kqueue that a
    /// number of a process names. Or why such a call is impossible.
    pub fn pending(&self, pid: u32, fd: u32, room: u32) -> Result<u32, Why>
        ensures pending { IfOk result (λ n. n
            ≡ pending_in (views_of (world_of self.now.world)) room
            (live_named pid fd (system_of self.now))) }
        ensures refused { IfErr result (λ why. plan_kevent pid fd [] room (world_of self.now.world) ≡ Impossible why) }
        ensures possible { OnOk result (IsPossible (plan_kevent pid fd [] room (world_of self.now.world))) }
    {
        let found = self.called(pid, fd, room)?;
        let Some(kq) = found else {
            return Ok(0);
        };
        Ok(kq.pending(room, &self.world))
    }

    /// The knote of a key in the kqueue that a number of a process names; none where there is none. Or why a call of
    /// kevent(2) by this number is impossible.
    pub fn registered(&self, pid: u32, fd: u32, key: Key) -> Result<Option<Knote>, Why>
        ensures knote { IfOk result (λ knote. knote ≡ registered_in key (live_named pid fd (system_of self.now))) }
        ensures refused { IfErr result (λ why. plan_kevent pid fd [] 0 (world_of self.now.world) ≡ Impossible why) }
        ensures possible { OnOk result (IsPossible (plan_kevent pid fd [] 0 (world_of self.now.world))) }
    {
        let found = self.called(pid, fd, 0)?;
        let Some(kq) = found else {
            return Ok(None);
        };
        Ok(kq.knotes().get(key))
    }
}
