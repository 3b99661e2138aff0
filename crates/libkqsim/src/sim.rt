//! What a handle stands for: a system, and what it logs.
ghost use Rattle.std.specs.Prelude.{◌≡◌, IfOk};
ghost use Rattle.kq_model.specs.Limits.{IsVersion};
ghost use Rattle.libkqsim.specs.Asked.{IsTold};
ghost use Rattle.libkqsim.specs.Handles.{IsEmpty};
ghost use Rattle.libkqsim.specs.Logs.{IsLogged, IsNext, IsSwitched, stream_of, with_rest};
ghost use Rattle.libkqsim.specs.Steps.{IsAnswered};
ghost use Rattle.libkqsim.specs.declared.log.Stage.TheVariants as stage;

use crate::asked::{Answer, Asked, tell};
use crate::log::{Log, Stage};
use crate::step::step;
use kq_freebsd::Refusal;
use kq_model::{Event, Memory, Reply};
use kq_system::System;
use std::alloc::Global;
use std::marker::Model;

/// What is done with the log.
#[derive(Debug, Drop, Clone, Copy)]
pub(crate) enum Logging {
    Begin,
    End,
}

/// A text of the log.
#[derive(Debug, Drop, Clone, Copy)]
pub(crate) enum Stream {
    Trace,
    Report,
}

/// A system, and what it logs.
#[derive(Drop)]
pub(crate) struct Sim {
    system: System,
    log: Log,
}

impl Model for Sim {
    ghost use Rattle.std.specs.Coded.{codes};
    ghost use Rattle.std.specs.Prelude.{◌≤◌};
    ghost use Rattle.kq_system.specs.contracts.system.System as code;
    ghost use Rattle.libkqsim.specs.Logs.{SimState};

    ghost Value = { SimState };

    ghost coded = { Prim.hlevel (codes, code.the_row.coded) };

    ghost view = { λ s. record { system = s.system; log = s.log.logged } };

    ghost invariant = { λ s. s.log.logged.calls ≤ s.system.applied };
}

impl Sim {
    /// An empty system for traces of this version, which logs nothing.
    pub(crate) fn new(alloc: Global, version: u32) -> Result<Sim, Memory>
        requires { IsVersion version }
        ensures { IfOk result (IsEmpty version) }
    {
        Ok(Sim {
            system: System::new(alloc, version)?,
            log: Log::new(alloc, version),
        })
    }

    /// Applies one event to the system, and logs it where the log is on.
    pub(crate) fn apply(&mut self, event: &Event) -> Result<Reply, Refusal>
        ensures answered { IsAnswered event.now self.old.system self.new.system result }
        ensures logged { IsLogged event.now self.old self.new result }
    {
        match self.log.stage() {
            Stage::On => self.apply_and_log(event),
            Stage::Off | Stage::Ended => step(&mut self.system, event),
        }
    }

    /// The same, where the log is on. Memory for the lines comes first.
    fn apply_and_log(&mut self, event: &Event) -> Result<Reply, Refusal>
        requires { self.old.log.stage ≡ stage.On }
        ensures answered { IsAnswered event.now self.old.system self.new.system result }
        ensures logged { IsLogged event.now self.old self.new result }
    {
        self.log.make_room(event).map_err(|_| Refusal::Memory)?;
        let reply = step(&mut self.system, event)?;
        self.log.put(self.system.applied(), &reply);
        Ok(reply)
    }

    /// Answers a question. Nothing changes.
    pub(crate) fn tell(&mut self, asked: &Asked) -> Answer
        ensures told { IsTold asked.now self.old.system result }
        ensures same { self.new ≡ self.old }
    {
        tell(&mut self.system, asked)
    }

    /// Begins the log before the first record, or ends it.
    pub(crate) fn switch(&mut self, logging: &Logging) -> Result<(), Refusal>
        ensures { IsSwitched logging.now self.old self.new result }
    {
        match (logging, self.log.stage()) {
            (Logging::Begin, Stage::Off) if self.system.applied() == 0 => {
                self.log.begin().map_err(|_| Refusal::Memory)
            }
            (Logging::End, Stage::On) => {
                let records = self.system.applied();
                self.log.end(records).map_err(|_| Refusal::Memory)
            }
            _ => Err(Refusal::Argument),
        }
    }

    /// Takes the first byte of a text.
    pub(crate) fn next(&mut self, of: &Stream) -> Option<u8>
        ensures next { IsNext (stream_of of.now self.old.log) (stream_of of.now self.new.log) result }
        ensures rest { self.new.log ≡ with_rest of.now (stream_of of.now self.new.log) self.old.log }
        ensures same { self.new.system ≡ self.old.system }
    {
        match of {
            Stream::Trace => self.log.next_of_trace(),
            Stream::Report => self.log.next_of_report(),
        }
    }
}
