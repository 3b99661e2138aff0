//! The run up to one call, with what some kevents of its kqueue went through.

ghost use Rattle.std.specs.Prelude.{◌≡◌, ◌+◌, ◌-◌, ◌^◌, ◌<◌, ◌≤◌, IfOk, IfSome, MatchOption, OnOk, length, take};
ghost use Rattle.std.specs.Option.{option_map};
ghost use Rattle.kq_model.specs.declared.event.Event.TheVariants as event_of;
ghost use Rattle.kq_model.specs.System.{step};
ghost use Rattle.kq_process.specs.World.{last_of};
ghost use Rattle.kq_system.specs.Beginning.{IsBeginning, IsStepSoFar};
ghost use Rattle.kq_system.specs.SystemState.{system_of};
ghost use Rattle.kq_check.specs.Carried.{AreCarried, IsCallCarried, IsCarried, IsNoCall, IsReadOn, IsRunBefore};
ghost use Rattle.kq_check.specs.Carried.{record_at};
ghost use Rattle.kq_check.specs.Replies.{behind_place, given_at};

use crate::became::{Part, name_of};
use crate::history::History;
use crate::judging::{answer_at, arrange};
use crate::verdict::Call;
use kq_answers::{Answer, Given};
use kq_judge::Ignored;
use kq_model::{Change, Event, Memory, Reply, Trace};
use kq_process::World;
use kq_system::System;
use std::alloc::Global;

/// A run that has come to a place.
#[derive(Drop)]
pub struct Story<'r> {
    alloc: Global,
    pub system: System,
    /// The world once more, which says what a record touches before the system carries it out.
    world: World,
    pub history: History,
    /// Members that are not compared.
    pub ignored: &'r [Ignored],
    /// The answers from that place on.
    pub rest: &'r [Answer],
}

/// The record at a place.
pub fn event_at(trace: &Trace, at: u64) -> Option<&Event>
    ensures place { IfSome result (λ _. at < 2 ^ 31) }
    ensures positive { IfSome result (λ _. 0 < at) }
    ensures within { IfSome result (λ _. at ≤ length trace.now.events) }
    ensures there { option_map (λ e. e.now) result ≡ record_at at trace.now.events }
{
    let events = trace.events.as_slice();
    if at == 0 || at > events.len() as u64 {
        return None;
    }
    Some(&events[(at - 1) as usize])
}

/// The call that a record is, and its changes; none for another record.
pub fn call_of(event: &Event) -> Option<(Call, &[Change])>
    ensures { MatchOption result (IsNoCall event.now)
        (λ call. event.now ≡ event_of.Kevent call.0.pid call.0.fd call.1.now call.0.room) }
{
    match event {
        Event::Kevent {
            pid,
            fd,
            changes,
            room,
        } => {
            let call = Call {
                pid: *pid,
                fd: *fd,
                room: *room,
            };
            Some((call, changes.as_slice()))
        }
        _ => None,
    }
}

/// Carries out the records before a place, and notes what these kevents go through. The story can be moved at little
/// cost.
pub fn story_before<'r>(
    alloc: Global,
    trace: &Trace,
    answers: &'r [Answer],
    ignored: &'r [Ignored],
    at: u64,
    history: History,
) -> Result<Box<Story<'r>>, Memory>
    requires small { at < 2 ^ 31 }
    requires positive { 0 < at }
    ensures applied { IfOk result (λ story. story.value.system.applied < at) }
    ensures all { IfOk result (λ story. at ≤ length trace.now.events → story.value.system.applied + 1 ≡ at) }
    ensures run { IfOk result (λ story. IsRunBefore ignored.now trace.now.version trace.now.events answers.now at
        (system_of story.value.system) story.value.rest.now) }
    ensures ignored { IfOk result (λ story. story.value.ignored.now ≡ ignored.now) }
{
    let story = Story {
        alloc,
        system: System::new(alloc, trace.version)?,
        world: World::new(alloc)?,
        history,
        ignored,
        rest: answers,
    };
    let mut story = Box::new(alloc, story)?;
    story.go_on_before(trace, at)?;
    Ok(story)
}

impl<'r> Story<'r> {
    /// Carries out the records before a place, where none was carried out yet.
    fn go_on_before(&mut self, trace: &Trace, at: u64) -> Result<(), Memory>
        requires small { at < 2 ^ 31 }
        requires positive { 0 < at }
        requires none { self.old.system.applied ≡ 0 }
        requires world { last_of self.old.world ≤ self.old.system.applied }
        ensures applied { OnOk result (self.new.system.applied < at) }
        ensures all { OnOk result (at ≤ length trace.now.events → self.new.system.applied + 1 ≡ at) }
        ensures run { OnOk result (AreCarried self.old.ignored.now 1 (system_of self.old.system)
            (take (at - 1) trace.now.events) self.old.rest.now (system_of self.new.system) self.new.rest.now) }
        ensures ignored { OnOk result (self.new.ignored.now ≡ self.old.ignored.now) }
    {
        let events = trace.events.as_slice();
        'records: for event in events {
            if self.system.applied() + 1 >= at {
                return Ok(());
            }
            self.go_on(event)?;
        }
        Ok(())
    }

    /// Carries out one record.
    fn go_on(&mut self, event: &Event) -> Result<(), Memory>
        requires few { self.old.system.applied < 2 ^ 31 - 1 }
        requires world { last_of self.old.world ≤ self.old.system.applied }
        ensures applied { OnOk result (self.new.system.applied ≡ self.old.system.applied + 1) }
        ensures world { OnOk result (last_of self.new.world ≤ self.new.system.applied) }
        ensures carried { OnOk result (IsCarried self.old.ignored.now (self.old.system.applied + 1) event.now
            (given_at (self.old.system.applied + 1) self.old.rest.now)
            (system_of self.old.system) (system_of self.new.system)) }
        ensures rest { OnOk result
            (self.new.rest.now ≡ behind_place (self.old.system.applied + 1) self.old.rest.now) }
        ensures ignored { OnOk result (self.new.ignored.now ≡ self.old.ignored.now) }
    {
        let (given, behind) = answer_at(self.rest, self.system.applied() + 1);
        self.rest = behind;
        match call_of(event) {
            Some((call, changes)) => self.go_on_call(call, changes, given),
            None => self.carry_out(event),
        }
    }

    /// Carries out a call.
    fn go_on_call(
        &mut self,
        call: Call,
        changes: &[Change],
        given: Option<&Given>,
    ) -> Result<(), Memory>
        requires few { self.old.system.applied < 2 ^ 31 - 1 }
        ensures applied { OnOk result (self.new.system.applied ≡ self.old.system.applied + 1) }
        ensures world { self.new.world ≡ self.old.world }
        ensures carried { OnOk result (IsCallCarried self.old.ignored.now (self.old.system.applied + 1)
            call.pid call.fd changes.now call.room (option_map (λ g. g.now) given.entry)
            (system_of self.old.system) (system_of self.new.system)) }
        ensures rest { self.new.rest.now ≡ self.old.rest.now }
        ensures ignored { self.new.ignored.now ≡ self.old.ignored.now }
    {
        match self.begin(call, changes)? {
            Some(_) => Ok(()),
            None => {
                let _ = self.read(call, given)?;
                Ok(())
            }
        }
    }

    /// Carries out a record that is no call.
    fn carry_out(&mut self, event: &Event) -> Result<(), Memory>
        requires few { self.old.system.applied < 2 ^ 31 - 1 }
        requires world { last_of self.old.world ≤ self.old.system.applied }
        ensures applied { OnOk result (self.new.system.applied ≡ self.old.system.applied + 1) }
        ensures world { OnOk result (last_of self.new.world ≤ self.new.system.applied) }
        ensures carried { OnOk result (system_of self.new.system
            ≡ (step (self.old.system.applied + 1) event.now (system_of self.old.system)).system) }
        ensures rest { self.new.rest.now ≡ self.old.rest.now }
        ensures ignored { self.new.ignored.now ≡ self.old.ignored.now }
    {
        let effect = self.world.apply(self.system.applied() + 1, event)?;
        let told = self
            .history
            .told_by(self.alloc, &self.system, event, &effect)?;
        let _ = self.system.apply(event)?;
        self.history.note(&self.system, name_of(event), Part::Record, told.as_slice())
    }

    /// The first step of a call: its reply, or none where it goes on to read events.
    pub fn begin(&mut self, call: Call, changes: &[Change]) -> Result<Option<Reply>, Memory>
        requires { self.old.system.applied < 2 ^ 31 - 1 }
        ensures applied { OnOk result (self.new.system.applied ≡ self.old.system.applied + 1) }
        ensures world { self.new.world ≡ self.old.world }
        ensures begun { IfOk result (IsBeginning (self.old.system.applied + 1)
            (event_of.Kevent call.pid call.fd changes.now call.room)
            (system_of self.old.system) (system_of self.new.system)) }
        ensures steps { IfOk result (IsStepSoFar (self.old.system.applied + 1) call.pid call.fd changes.now call.room
            (system_of self.old.system) (system_of self.new.system)) }
        ensures rest { self.new.rest.now ≡ self.old.rest.now }
        ensures ignored { self.new.ignored.now ≡ self.old.ignored.now }
    {
        let told = self.history.told_by_changes(self.alloc, call, changes)?;
        let reply = self
            .system
            .begin_call(call.pid, call.fd, changes, call.room)?;
        self.history
            .note(&self.system, "kevent", Part::Changes, told.as_slice())?;
        Ok(reply)
    }

    /// The second step of a call.
    pub fn read(&mut self, call: Call, given: Option<&Given>) -> Result<Reply, Memory>
        ensures applied { OnOk result (self.new.system.applied ≡ self.old.system.applied) }
        ensures world { self.new.world ≡ self.old.world }
        ensures read { IfOk result (λ reply. IsReadOn self.old.ignored.now self.old.system.applied
            call.pid call.fd call.room (option_map (λ g. g.now) given.entry)
            (system_of self.old.system) reply (system_of self.new.system)) }
        ensures rest { self.new.rest.now ≡ self.old.rest.now }
        ensures ignored { self.new.ignored.now ≡ self.old.ignored.now }
    {
        let _ = arrange(self.alloc, &mut self.system, call, given, self.ignored)?;
        let told = self.history.looked_at(self.alloc, &self.system, call)?;
        let reply = self.system.read_events(call.pid, call.fd, call.room)?;
        if let Reply::Events(_) = &reply {
            self.history
                .note(&self.system, "kevent", Part::Reading, told.as_slice())?;
        }
        Ok(reply)
    }
}
