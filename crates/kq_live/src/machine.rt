//! The system as a machine under the lock.
ghost use Rattle.std.specs.Prelude.{◌≡◌, IfOk};
ghost use Rattle.kq_model.specs.Limits.{IsVersion};
ghost use Rattle.kq_live.specs.LiveSteps.{IsEmpty, IsNextStep};
ghost use Rattle.kq_live.specs.Owners.{actor};

use crate::spare::Spare;
use kq_lock::Machine;
use kq_model::{Event, Memory, Reply};
use kq_serve::Served;
use kq_system::System;
use std::alloc::Global;
use std::marker::Model;
use std::snapshot::Snapshot;

/// Events that a system can apply.
const MOST_EVENTS: u64 = (1 << 31) - 1;

/// The system, whose step is an event and whose answer the reply to it. It can be moved at little cost.
#[derive(Drop)]
pub struct LiveMachine {
    system: Box<System>,
    /// For the prover alone: the system as the last event left it. An event that was refused may have left more room
    /// in `system`, which contracts see in a system and not here.
    settled: Snapshot<System>,
    alloc: Global,
}

impl Model for LiveMachine {
    ghost use Rattle.kq_system.specs.contracts.system.System as code;
    ghost use Rattle.kq_system.specs.SystemState.{IsUnchanged, SystemState};

    ghost Value = { SystemState };

    ghost coded = { code.the_row.coded };

    ghost view = { λ m. m.settled.value };

    ghost invariant = { λ m. IsUnchanged m.settled.value m.system.value };
}

impl LiveMachine {
    /// The system before the first event of a trace of this version, which is 1 or 2.
    pub(crate) fn new(alloc: Global, version: u32) -> Result<Self, Memory>
        requires { IsVersion version }
        ensures { IfOk result (λ m. IsEmpty version m) }
    {
        let system = System::new(alloc, version)?;
        let settled = Snapshot::of(&system);
        let system = Box::new(alloc, system)?;
        Ok(LiveMachine {
            system,
            settled,
            alloc,
        })
    }
}

impl Machine for LiveMachine {
    type Step = Event;

    type Answer = Reply;

    ghost leads = { λ v e a w. IsNextStep v e a w };

    // Memory comes before the step, for the copy too: after the step there is no way back. The history keeps the
    // system's own reply, since the copy holds on to memory for as many events as the call had room for.
    fn apply(&mut self, event: &Event) -> Result<(Reply, Reply), Memory> {
        if self.system.applied() >= MOST_EVENTS {
            return Err(Memory);
        }
        let spare = Spare::for_reply_to(self.alloc, event)?;
        let reply = self.system.apply(event)?;
        self.settled = Snapshot::of(&*self.system);
        let copy = spare.copy_of(&reply);
        Ok((copy, reply))
    }
}

impl Served for LiveMachine {
    ghost owner = { actor };

    fn owner_of(event: &Event) -> u64 {
        match event {
            Event::Proc { pid }
            | Event::Fork { pid, .. }
            | Event::Exit { pid, .. }
            | Event::Kqueue { pid, .. }
            | Event::Dup { pid, .. }
            | Event::Close { pid, .. }
            | Event::Socket { pid, .. }
            | Event::Listen { pid, .. }
            | Event::Arrive { pid, .. }
            | Event::Accept { pid, .. }
            | Event::Connect { pid, .. }
            | Event::Rx { pid, .. }
            | Event::Tx { pid, .. }
            | Event::Shut { pid, .. }
            | Event::Lowat { pid, .. }
            | Event::Pipe { pid, .. }
            | Event::Read { pid, .. }
            | Event::Write { pid, .. }
            | Event::Exec { pid }
            | Event::Sigset { pid, .. }
            | Event::Sig { pid, .. }
            | Event::Open { pid, .. }
            | Event::Seek { pid, .. }
            | Event::Kevent { pid, .. } => u64::from(*pid),
            Event::File { .. }
            | Event::Truncate { .. }
            | Event::Note { .. }
            | Event::Clock { .. } => 0,
        }
    }

    fn copy(event: &Event) -> Result<Event, Memory> {
        event.copy()
    }
}
