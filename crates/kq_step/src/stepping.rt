//! One record after the other: the system, and what the last line counts.

ghost use Rattle.std.specs.Prelude.{◌≡◌, ◌<◌, IfOk};
ghost use Rattle.kq_model.specs.Limits.{IsVersion};
ghost use Rattle.kq_step.specs.Stepping.{Standing, before_records, counts_line};
ghost use Rattle.kq_step.specs.Stood.{HasAnswered, HasReplied, IsAt};

use crate::text::{fault_text, replied_text};
use kq_merge::{calls_in, events_in, put_counts};
use kq_model::{Event, Memory};
use kq_system::System;
use kq_trace::record_on;
use std::alloc::Global;
use std::marker::Model;

/// A system to which one record comes after the other, and what the last line is to count of them.
#[derive(Drop)]
pub struct Stepping {
    alloc: Global,
    system: System,
    calls: u64,
    events: u128,
}

impl Model for Stepping {
    ghost use Rattle.std.specs.Coded.{codes};
    ghost use Rattle.std.specs.Prelude.{◌≤◌, ◌*◌, ◌^◌};
    ghost use Rattle.kq_system.specs.contracts.system.System as code;
    ghost use Rattle.kq_step.specs.Stood.{Stood};

    ghost Value = { Stood };

    ghost coded = { Prim.hlevel (codes, code.the_row.coded) };

    ghost view = { λ s. record { system = s.system; calls = s.calls; events = s.events } };

    ghost invariant = { λ s. (s.system.applied ≤ 1000000) × (s.calls ≤ s.system.applied)
        × (s.events ≤ s.calls * 2 ^ 64) };
}

impl Stepping {
    /// Before the first record of a trace of this version.
    pub fn new(alloc: Global, version: u32) -> Result<Self, Memory>
        requires { IsVersion version }
        ensures { IfOk result (IsAt (before_records version)) }
    {
        Ok(Stepping {
            alloc,
            system: System::new(alloc, version)?,
            calls: 0,
            events: 0,
        })
    }

    /// Carries out the line of a number, and gives the text of its answer: the reply to its record, or its fault, by
    /// which nothing changes and no place is taken.
    pub fn answer(&mut self, number: u64, line: &[u8]) -> Result<Vec<u8>, Memory>
        ensures { IfOk result (λ text. HasAnswered number line.now self.old self.new text.items) }
    {
        match record_on(self.alloc, self.system.applied() + 2, line)? {
            Ok(event) => self.reply(&event),
            Err(fault) => fault_text(self.alloc, number, fault),
        }
    }

    /// Applies a record, and gives the line of the reply.
    fn reply(&mut self, event: &Event) -> Result<Vec<u8>, Memory>
        requires { self.old.system.applied < 1000000 }
        ensures { IfOk result (λ text. HasReplied event.now self.old self.new text.items) }
    {
        let reply = self.system.apply(event)?;
        self.calls += calls_in(&reply);
        self.events += u128::from(events_in(&reply));
        replied_text(self.alloc, self.system.applied(), &reply)
    }

    /// The last line.
    pub fn end(&self) -> Result<Vec<u8>, Memory>
        ensures { IfOk result (λ text. (m : Standing) → IsAt m self.now → text.items ≡ counts_line m) }
    {
        let mut text = Vec::new(self.alloc);
        put_counts(&mut text, self.calls, self.events, self.system.applied())?;
        Ok(text)
    }
}
