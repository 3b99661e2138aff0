//! The handle that C has.
ghost use Rattle.std.specs.Prelude.{◌≡◌};
ghost use Rattle.libkqsim.specs.Asked.{IsTold};
ghost use Rattle.libkqsim.specs.Handles.{held};
ghost use Rattle.libkqsim.specs.Logs.{IsLogged, IsNext, IsSwitched, SimState, stream_of, with_rest};
ghost use Rattle.libkqsim.specs.Steps.{IsAnswered};
ghost use Rattle.libkqsim.specs.contracts.sim.Sim as sim_row;

use crate::asked::{Answer, Asked};
use crate::sim::{Logging, Sim, Stream};
use kq_freebsd::Refusal;
use kq_model::{Event, Reply};
use std::alloc::Global;
use std::marker::Model;

/// What `struct kqsim` is: a handle to a system on the heap. Its Drop frees nothing: C owns it until `kqsim_free`.
#[repr(C)]
#[derive(Drop)]
pub struct Kqsim {
    at: *mut u8,
    pub ghost state: { SimState } by { sim_row.the_row.coded },
}

impl Model for Kqsim {
    ghost also_owns = { λ k. held k.at k.state };
}

impl Kqsim {
    /// Takes a system over.
    pub(crate) fn of(sim: Box<Sim>) -> Kqsim
        ensures { result.state ≡ sim.value }
    {
        let at = Box::into_raw(sim);
        Kqsim { at: at as *mut u8 }
    }

    /// Gives the system back.
    pub(crate) fn into_box(self, alloc: Global) -> Box<Sim>
        ensures { result.value ≡ self.state }
    {
        let Kqsim { at } = self;
        unsafe { Box::from_raw(alloc, at as *mut Sim) }
    }

    /// Applies one event to the system, and logs it where the log is on.
    pub(crate) fn step(&mut self, event: &Event) -> Result<Reply, Refusal>
        ensures answered { IsAnswered event.now self.old.state.system self.new.state.system result }
        ensures logged { IsLogged event.now self.old.state self.new.state result }
    {
        let sim = self.at as *mut Sim;
        unsafe { Sim::apply(&mut *sim, event) }
    }

    /// Asks the system, which stays as it is.
    pub(crate) fn ask(&mut self, asked: &Asked) -> Answer
        ensures told { IsTold asked.now self.old.state.system result }
        ensures same { self.new.state ≡ self.old.state }
    {
        let sim = self.at as *mut Sim;
        unsafe { Sim::tell(&mut *sim, asked) }
    }

    /// Begins the log before the first record, or ends it.
    pub(crate) fn switch(&mut self, logging: &Logging) -> Result<(), Refusal>
        ensures { IsSwitched logging.now self.old.state self.new.state result }
    {
        let sim = self.at as *mut Sim;
        unsafe { Sim::switch(&mut *sim, logging) }
    }

    /// Takes the first byte of a text of the log.
    pub(crate) fn next(&mut self, of: &Stream) -> Option<u8>
        ensures next { IsNext (stream_of of.now self.old.state.log) (stream_of of.now self.new.state.log) result }
        ensures rest { self.new.state.log
            ≡ with_rest of.now (stream_of of.now self.new.state.log) self.old.state.log }
        ensures same { self.new.state.system ≡ self.old.state.system }
    {
        let sim = self.at as *mut Sim;
        unsafe { Sim::next(&mut *sim, of) }
    }
}
