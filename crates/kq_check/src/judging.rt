//! The answers to a trace, one record after the other.

ghost use Rattle.std.specs.Prelude.{◌≡◌, ◌+◌, ◌-◌, ◌^◌, ◌<◌, List, [], None, Some, IfOk, OnOk};
ghost use Rattle.std.specs.Option.{option_map};
ghost use Rattle.kq_system.specs.SystemState.{system_of};
ghost use Rattle.kq_check.specs.AnyOrder.{IsOutcomeInAnyOrder};
ghost use Rattle.kq_check.specs.Judged.{IsJudged, IsJudgedFrom, IsNext, ended};
ghost use Rattle.kq_check.specs.Replies.{behind_place, given_at};
ghost use Rattle.kq_check.specs.LeftOpen.{opened, opened_by, opened_in};
ghost use Rattle.kq_check.specs.Stepped.{IsArranged, IsArrangedOf, IsOrder, IsRead, IsStepped};
ghost use Rattle.kq_system.specs.Beginning.{live_named};
ghost use Rattle.kq_judge.specs.declared.member.Ignored.{Ignored as DeclaredIgnored};

use crate::answering::{are_same, events_in_order, keys_of};
use crate::left_open::{OpenOrders, events_in, kqueue_of, opened_of, place_named, waiting_in};
use crate::outcome::Outcome;
use crate::verdict::{Call, Verdict, verdict_of};
use kq_answers::{Answer, Given};
use kq_judge::{Ignored, Judgement, judge};
use kq_model::{Event, Kevent, Memory, Trace};
use kq_system::System;
use std::alloc::Global;

/// What a record came to, and the kqueue whose order it left open, if it did, by its place.
#[derive(Drop, Clone, Copy)]
pub(crate) struct Taken {
    pub(crate) verdict: Verdict,
    pub(crate) opened: Option<u64>,
}

/// What a record came to that left no order open.
fn came_to(verdict: Verdict) -> Taken
    ensures verdict { result.verdict ≡ verdict }
    ensures opened { result.opened ≡ None }
{
    Taken {
        verdict,
        opened: None,
    }
}

/// Carries a record out, of which this is the answer, if there is one. Members that are ignored are not compared.
pub(crate) fn step(
    alloc: Global,
    system: &mut System,
    event: &Event,
    given: Option<&Given>,
    ignored: &[Ignored],
) -> Result<Taken, Memory>
    requires { system.old.applied < 2 ^ 31 - 1 }
    ensures stepped { IfOk result (λ t. IsStepped ignored.now (system.old.applied + 1) event.now
        (option_map (λ g. g.now) given.entry) (system_of system.old) t.verdict (system_of system.new)) }
    ensures opened { IfOk result (λ t. t.opened ≡ opened (system.old.applied + 1) event.now
        (option_map (λ g. g.now) given.entry) (system_of system.old)) }
    ensures applied { OnOk result (system.new.applied ≡ system.old.applied + 1) }
{
    match event {
        Event::Kevent {
            pid,
            fd,
            changes,
            room,
        } => match system.begin_call(*pid, *fd, changes.as_slice(), *room)? {
            Some(reply) => Ok(came_to(verdict_of(&reply, given))),
            None => {
                let call = Call {
                    pid: *pid,
                    fd: *fd,
                    room: *room,
                };
                read(alloc, system, call, given, ignored)
            }
        },
        _ => {
            let reply = system.apply(event)?;
            Ok(came_to(verdict_of(&reply, given)))
        }
    }
}

/// The second step of a call.
fn read(
    alloc: Global,
    system: &mut System,
    call: Call,
    given: Option<&Given>,
    ignored: &[Ignored],
) -> Result<Taken, Memory>
    ensures read { IfOk result (λ t. IsRead ignored.now system.old.applied call.pid call.fd call.room
        (option_map (λ g. g.now) given.entry) (system_of system.old) t.verdict (system_of system.new)) }
    ensures opened { IfOk result (λ t. t.opened ≡ opened_by system.old.applied call.pid call.fd call.room
        (option_map (λ g. g.now) given.entry) (system_of system.old)) }
    ensures applied { system.new.applied ≡ system.old.applied }
{
    match given {
        Some(answer) => {
            let verdict = read_answered(alloc, system, call, answer, ignored)?;
            Ok(came_to(verdict))
        }
        None => read_unanswered(system, call),
    }
}

/// Events are read in the order of the queue, of a call that has no answer.
fn read_unanswered(system: &mut System, call: Call) -> Result<Taken, Memory>
    ensures read { IfOk result (λ t. (ignored : List DeclaredIgnored) → IsRead ignored system.old.applied call.pid call.fd
        call.room None (system_of system.old) t.verdict (system_of system.new)) }
    ensures opened { IfOk result (λ t. t.opened
        ≡ opened_in system.old.applied call.pid call.fd call.room (system_of system.old)) }
    ensures applied { system.new.applied ≡ system.old.applied }
{
    let waiting = waiting_in(system, call);
    let kqueue = place_named(system, call.pid, call.fd);
    let reply = system.read_events(call.pid, call.fd, call.room)?;
    Ok(Taken {
        verdict: Verdict::Equal,
        opened: opened_of(kqueue, call.room, waiting, events_in(&reply)),
    })
}

/// Events are read in the order of the queue, or in the one that the answer has.
fn read_answered(
    alloc: Global,
    system: &mut System,
    call: Call,
    given: &Given,
    ignored: &[Ignored],
) -> Result<Verdict, Memory>
    ensures read { IfOk result (λ v. IsRead ignored.now system.old.applied call.pid call.fd call.room
        (Some given.now) (system_of system.old) v (system_of system.new)) }
    ensures applied { system.new.applied ≡ system.old.applied }
{
    match arrange(alloc, system, call, Some(given), ignored)? {
        Verdict::Refused => Ok(Verdict::Refused),
        Verdict::Equal => {
            let _ = system.read_events(call.pid, call.fd, call.room)?;
            Ok(Verdict::Equal)
        }
        Verdict::Allowed => {
            let _ = system.read_events(call.pid, call.fd, call.room)?;
            Ok(Verdict::Allowed)
        }
        Verdict::Impossible(why) => {
            let _ = system.read_events(call.pid, call.fd, call.room)?;
            Ok(Verdict::Impossible(why))
        }
    }
}

/// Puts the queue of a kqueue, of which events are to be read, into the order that the answer has, if it has one.
pub(crate) fn arrange(
    alloc: Global,
    system: &mut System,
    call: Call,
    given: Option<&Given>,
    ignored: &[Ignored],
) -> Result<Verdict, Memory>
    ensures arranged { IfOk result (λ v. IsArranged ignored.now call.pid call.fd call.room
        (option_map (λ g. g.now) given.entry) (system_of system.old) v (system_of system.new)) }
    ensures applied { system.new.applied ≡ system.old.applied }
{
    match given {
        Some(Given::Events(own)) => arrange_by(alloc, system, call, own.as_slice(), ignored),
        Some(Given::Failed(_)) => Ok(Verdict::Refused),
        Some(Given::Impossible(_)) => Ok(Verdict::Refused),
        None => Ok(Verdict::Equal),
    }
}

/// Puts the answer's kevents first in the queue, where that is allowed and gives what the order as it stands does not.
fn arrange_by(
    alloc: Global,
    system: &mut System,
    call: Call,
    own: &[Kevent],
    ignored: &[Ignored],
) -> Result<Verdict, Memory>
    ensures arranged { IfOk result (λ v. IsArrangedOf ignored.now call.pid call.fd call.room own.now
        (live_named call.pid call.fd (system_of system.old)) (system_of system.old) v (system_of system.new)) }
    ensures applied { system.new.applied ≡ system.old.applied }
{
    match order_of(alloc, system, call, own, ignored)? {
        Verdict::Allowed => {
            let keys = keys_of(alloc, own)?;
            system.put_first(call.pid, call.fd, keys.as_slice());
            Ok(Verdict::Allowed)
        }
        Verdict::Equal => Ok(Verdict::Equal),
        Verdict::Refused => Ok(Verdict::Refused),
        Verdict::Impossible(why) => Ok(Verdict::Impossible(why)),
    }
}

/// Whether the order of the queue gives these events, another one does, or none.
fn order_of(
    alloc: Global,
    system: &System,
    call: Call,
    own: &[Kevent],
    ignored: &[Ignored],
) -> Result<Verdict, Memory>
    ensures { IfOk result (IsOrder ignored.now call.room own.now
        (live_named call.pid call.fd (system_of system.now)) (system_of system.now)) }
{
    let Some(kq) = system.kqueue(call.pid, call.fd) else {
        return Ok(Verdict::Refused);
    };
    let world = system.world();
    match judge(alloc, kq, call.room, own, ignored, world)? {
        Judgement::Allowed => {
            let events = events_in_order(alloc, kq, call.room, world)?;
            if are_same(events.as_slice(), own, ignored) {
                Ok(Verdict::Equal)
            } else {
                Ok(Verdict::Allowed)
            }
        }
        Judgement::Wrong { .. } => Ok(Verdict::Refused),
        Judgement::Missing { .. } => Ok(Verdict::Refused),
    }
}

/// The answer to the record at a place, if the next one is that, and those behind it.
pub fn answer_at(answers: &[Answer], place: u64) -> (Option<&Given>, &[Answer])
    ensures given { option_map (λ g. g.now) result.0 ≡ given_at place answers.now }
    ensures behind { result.1.now ≡ behind_place place answers.now }
{
    if answers.is_empty() {
        return (None, answers);
    }
    if answers[0].at != place {
        return (None, answers);
    }
    (Some(&answers[0].given), &answers[1..])
}

/// Whether a run goes on behind a verdict.
#[derive(Drop, Clone, Copy)]
pub(crate) enum Next {
    /// It does; this is the first place at which the order was another one, if there is one.
    On(Option<u64>),
    /// It is over.
    Over(Outcome),
}

/// Whether a run goes on behind the verdict of the record at a place, where the order of its kqueue is open or not.
fn next_of(verdict: Verdict, is_open: bool, at: u64, first: Option<u64>, permits: bool) -> Next
    ensures { IsNext permits is_open at verdict first result }
{
    match verdict {
        Verdict::Equal => Next::On(first),
        Verdict::Allowed => match first {
            None => Next::On(Some(at)),
            Some(first) => Next::On(Some(first)),
        },
        Verdict::Refused if is_open => Next::Over(Outcome::Unknown { at }),
        Verdict::Refused => Next::Over(Outcome::Refused { at }),
        Verdict::Impossible(why) => {
            if permits {
                Next::On(first)
            } else {
                Next::Over(Outcome::Impossible { at, why })
            }
        }
    }
}

/// The outcome once all records were carried out.
fn ended(first: Option<u64>) -> Outcome
    ensures { result ≡ ended first }
{
    match first {
        Some(first) => Outcome::Allowed { first },
        None => Outcome::Equal,
    }
}

/// What the answers to a trace come to. Where `permits`, impossible records are passed over, whatever their answers
/// are.
pub fn judge_all(
    alloc: Global,
    trace: &Trace,
    answers: &[Answer],
    ignored: &[Ignored],
    permits: bool,
) -> Result<Outcome, Memory>
    ensures judged { IfOk result (IsJudged ignored.now permits trace.now.version trace.now.events answers.now) }

    // Where each call has its answer, one that goes on from any order that gives an answer comes to the same.
    ensures any_order { IfOk result
        (IsOutcomeInAnyOrder ignored.now permits trace.now.version trace.now.events answers.now) }
{
    let empty = System::new(alloc, trace.version)?;
    let mut system = Box::new(alloc, empty)?;
    judge_from(alloc, &mut system, trace, answers, ignored, permits)
}

/// What the answers to a trace come to, as a system carries the records out that carried out none before.
fn judge_from(
    alloc: Global,
    system: &mut System,
    trace: &Trace,
    answers: &[Answer],
    ignored: &[Ignored],
    permits: bool,
) -> Result<Outcome, Memory>
    requires { system.old.applied ≡ 0 }
    ensures { IfOk result
        (IsJudgedFrom ignored.now permits 1 (system_of system.old) trace.now.events answers.now None []) }
{
    let mut rest = answers;
    let mut first = None;
    let mut unsure = OpenOrders::new(alloc);
    let events = trace.events.as_slice();
    'records: for event in events {
        let at = system.applied() + 1;
        let (given, behind) = answer_at(rest, at);
        rest = behind;
        let is_open = unsure.has(kqueue_of(event, system));
        let done = step(alloc, system, event, given, ignored)?;
        unsure.add(done.opened)?;
        match next_of(done.verdict, is_open, at, first, permits) {
            Next::On(later) => first = later,
            Next::Over(outcome) => return Ok(outcome),
        }
    }
    Ok(ended(first))
}
