//! A share of the system, for threads that fold one trace together: the whole world, and of the kqueues its own.

ghost use Rattle.std.specs.Prelude.{◌≡◌, ◌+◌, ◌-◌, ◌^◌, ◌<◌, ℕ, Bool, Option, Some, IfOk, IsOk, OnErr, OnOk};
ghost use Rattle.kq_model.specs.Limits.{IsVersion};
ghost use Rattle.kq_model.specs.ClosedNumbers.{ClosesAll};
ghost use Rattle.kq_model.specs.Hearing.{listed};
ghost use Rattle.kq_model.specs.Objects as objects;
ghost use Rattle.kq_model.specs.Recast.{IsTalliedStep, tallied_system};
ghost use Rattle.kq_model.specs.Shares.{dealt, if_own, share_step};
ghost use Rattle.kq_model.specs.System as model;
ghost use Rattle.kq_model.specs.System.{empty_system};
ghost use Rattle.kq_model.specs.WatchedNumbers.{AllWatchTheirNumbers};
ghost use Rattle.kq_system.specs.Dealing.{share_for};
ghost use Rattle.kq_system.specs.Sharing.{own_of, IsOwnShare, IsShareStep, IsStepBeside};
ghost use Rattle.kq_system.specs.SystemState.{IsImpossible, IsUnchanged, system_of};

use crate::System;
use crate::dealing::Dealing;
use kq_model::{Event, Memory, Reply};
use std::alloc::Global;
use std::marker::Model;

/// One of several shares of a system, which go over the same records. It keeps the whole world, but of the kqueues
/// only its own. Records that are impossible are answered by the first share alone.
#[derive(Drop)]
pub struct Share {
    system: System,
    number: u32,
    dealing: Dealing,
}

impl Model for Share {
    ghost use Rattle.std.specs.Prelude.{◌<◌};
    ghost use Rattle.std.specs.Coded.{codes};
    ghost use Rattle.kq_model.specs.Shares.{dealt};
    ghost use Rattle.kq_system.specs.contracts.system.System as whole;
    ghost use Rattle.kq_system.specs.Dealing.{share_for};
    ghost use Rattle.kq_system.specs.Sharing.{IsOwnShare, ShareState};
    ghost use Rattle.kq_system.specs.SystemState.{system_of};

    ghost Value = { ShareState };

    ghost coded = { Prim.hlevel (codes, whole.the_row.coded) };

    ghost view = { λ s. record { state = s.system; number = s.number; dealing = s.dealing } };

    ghost invariant = { λ s. (s.number < s.dealing.shares)
        × IsOwnShare (dealt (share_for s.dealing) s.number) (system_of s.system) };
}

impl Share {
    /// The share of this number before the first record of a trace of this version.
    pub fn new(alloc: Global, version: u32, number: u32, dealing: Dealing) -> Result<Self, Memory>
        requires version { IsVersion version }
        requires number { number < dealing.shares }
        ensures system { IfOk result (λ s. system_of s.state ≡ empty_system version) }
        ensures applied { IfOk result (λ s. s.state.applied ≡ 0) }
        ensures number { IfOk result (λ s. s.number ≡ number) }
        ensures dealing { IfOk result (λ s. s.dealing ≡ dealing) }
    {
        Ok(Share {
            system: System::new(alloc, version)?,
            number,
            dealing,
        })
    }

    /// How many events were applied.
    pub fn applied(&self) -> u64
        ensures { result ≡ self.now.state.applied }
    {
        self.system.applied()
    }

    /// Applies one event, and gives the reply to it where that is the share's own; else there is none.
    ///
    /// After [`Memory`] nothing has changed; a record that is impossible takes no memory.
    pub fn apply(&mut self, event: &Event) -> Result<Reply, Memory>
        requires { self.old.state.applied < 2 ^ 31 - 1 }
        ensures reply { IfOk result (IsShareStep (own_of self.old) (self.old.state.applied + 1) event.now
            (system_of self.old.state) (system_of self.new.state)) }

        // The same in the words of the definitions, which keep all that was recorded and heard.
        ensures model { IfOk result (λ reply. (m : model.System listed objects.listed)
            → system_of self.old.state ≡ tallied_system m
            → IsTalliedStep (system_of self.new.state) reply
            (share_step (own_of self.old) (self.old.state.applied + 1) event.now m)) }

        // No kqueue keeps a knote of a number that was closed, also where a duplicate stays open.
        ensures closed { OnOk result (ClosesAll (self.old.state.applied + 1) event.now (system_of self.old.state)
            (system_of self.new.state)) }

        // Each READ, WRITE or VNODE knote of each kqueue watches what its number names now.
        ensures watched { AllWatchTheirNumbers (system_of self.new.state) }
        ensures applied { IfOk result (λ _. self.new.state.applied ≡ self.old.state.applied + 1) }
        ensures number { self.new.number ≡ self.old.number }
        ensures dealing { self.new.dealing ≡ self.old.dealing }
        ensures memory { OnErr result (IsUnchanged self.old.state self.new.state) }
        ensures impossible { IsImpossible (self.old.state.applied + 1) event.now (system_of self.old.state)
            → IsOk result }
    {
        let place = self.system.applied() + 1;
        let mine = self.dealing.share_for(place) == self.number;
        let stepped = apply_beside(&mut self.system, mine, event);
        self.system.watch_their_numbers();
        Ok(own_reply(self.number == 0, stepped?))
    }
}

/// The reply, where those to impossible records are its own or not.
fn own_reply(mine: bool, reply: Reply) -> Reply
    ensures { result ≡ if_own mine reply }
{
    match reply {
        Reply::Impossible(why) => {
            if mine {
                Reply::Impossible(why)
            } else {
                Reply::Done
            }
        }
        reply => reply,
    }
}

/// The step of a share, for which a kqueue that is made by this record is its own or not.
fn apply_beside(system: &mut System, mine: bool, event: &Event) -> Result<Reply, Memory>
    requires { system.old.applied < 2 ^ 31 - 1 }
    ensures reply { IfOk result (λ reply. (own : Option ℕ → Bool) → own (Some (system.old.applied + 1)) ≡ mine
        → IsOwnShare own (system_of system.old)
        → IsStepBeside own (system.old.applied + 1) event.now (system_of system.old) (system_of system.new) reply) }
    ensures applied { IfOk result (λ _. system.new.applied ≡ system.old.applied + 1) }
    ensures memory { OnErr result (IsUnchanged system.old system.new) }
    ensures impossible { IsImpossible (system.old.applied + 1) event.now (system_of system.old) → IsOk result }
{
    match event {
        Event::Kqueue { pid, fd } => {
            if mine {
                system.apply(event)
            } else {
                system.pass(event, *pid, *fd)
            }
        }
        _ => system.apply(event),
    }
}
