//! Why an answer is not allowed.

ghost use Rattle.std.specs.Prelude.{◌-◌, ◌^◌, ◌<◌};

use crate::text::{put_absence, put_difference, put_given, put_key, put_moments, put_reply};
use kq_answers::{Answer, Given};
use kq_check::{
    Call, History, Story, answer_at, call_of, event_at, events_in_order, key_of, story_before,
};
use kq_judge::{Fault, Ignored, Judgement, judge};
use kq_model::{Change, Event, Kevent, Key, Memory, Reply, Series, Trace};
use kq_text::{put, put_number};
use std::alloc::Global;

/// What is wrong with an answer: of which kevent, its own event where it has one, and the fault of that event; without
/// a fault it is missing.
#[derive(Drop)]
struct Blame {
    key: Key,
    own: Option<Kevent>,
    fault: Option<Fault>,
}

/// Why the answer to the record at a place is not allowed: the answer, the events of the queue's order, the first
/// kevent that is wrong, and what that went through.
pub fn refusal_of(
    alloc: Global,
    trace: &Trace,
    answers: &[Answer],
    ignored: &[Ignored],
    at: u64,
) -> Result<Vec<u8>, Memory> {
    let mut out = Vec::new(alloc);
    let Some(event) = event_at(trace, at) else {
        return Ok(out);
    };
    let nobody = History::new(alloc, 0, 0, &[])?;
    let mut story = story_before(alloc, trace, answers, ignored, at, nobody)?;
    let blame = put_answers(alloc, &mut out, &mut story, event, at)?;
    if let (Some(blame), Some((call, changes))) = (blame, call_of(event)) {
        let mine = History::new(alloc, call.pid, call.fd, &[blame.key])?;
        let mut again = story_before(alloc, trace, answers, ignored, at, mine)?;
        put_blame(&mut out, &mut again, &blame, call, changes)?;
    }
    Ok(out)
}

/// Adds the answer that was given to a record, and that of the queue's order, and gives what is wrong. The story ends
/// with the record.
fn put_answers(
    alloc: Global,
    out: &mut Vec<u8>,
    story: &mut Story<'_>,
    event: &Event,
    at: u64,
) -> Result<Option<Blame>, Memory>
    requires { story.old.system.applied < 2 ^ 31 - 1 }
{
    let (Some(given), _) = answer_at(story.rest, at) else {
        return Ok(None);
    };
    put(out, "  yours   ")?;
    put_given(out, given)?;
    put(out, "\n  kqueue  ")?;
    let Some((call, changes)) = call_of(event) else {
        put(out, "no call, and possible\n")?;
        return Ok(None);
    };
    match story.begin(call, changes)? {
        Some(reply) => {
            put_early(out, &reply)?;
            Ok(None)
        }
        None => put_pending(alloc, out, story, call, given),
    }
}

/// Adds the reply of a call that reads no events.
fn put_early(out: &mut Vec<u8>, reply: &Reply) -> Result<(), Memory> {
    put_reply(out, reply)?;
    put(
        out,
        match reply {
            Reply::Failed(_) => "\n  differs a change failed, and its error had no room\n",
            _ => "\n  differs changes were answered by entries, so no events were read\n",
        },
    )
}

/// Adds the events that the queue gives as it stands: what is wrong with those that were given.
fn put_pending(
    alloc: Global,
    out: &mut Vec<u8>,
    story: &Story<'_>,
    call: Call,
    given: &Given,
) -> Result<Option<Blame>, Memory> {
    let Some(kq) = story.system.kqueue(call.pid, call.fd) else {
        return Ok(None);
    };
    let world = story.system.world();
    let events = events_in_order(alloc, kq, call.room, world)?;
    put_reply(out, &Reply::Events(Series::from_vec(events)))?;
    put(out, "\n")?;
    let Given::Events(own) = given else {
        return Ok(None);
    };
    let own = own.as_slice();
    let judgement = judge(alloc, kq, call.room, own, story.ignored, world)?;
    Ok(blame_of(judgement, own))
}

/// What a judgement blames.
fn blame_of(judgement: Judgement, own: &[Kevent]) -> Option<Blame> {
    match judgement {
        Judgement::Allowed => None,
        Judgement::Missing { key } => Some(Blame {
            key,
            own: None,
            fault: None,
        }),
        Judgement::Wrong { at, fault } => {
            let event = own.get(at)?;
            Some(Blame {
                key: key_of(event),
                own: Some(*event),
                fault: Some(fault),
            })
        }
    }
}

/// Adds what is blamed, and what that kevent went through until the changes of the call were done. The story ends
/// there.
fn put_blame(
    out: &mut Vec<u8>,
    story: &mut Story<'_>,
    blame: &Blame,
    call: Call,
    changes: &[Change],
) -> Result<(), Memory>
    requires { story.old.system.applied < 2 ^ 31 - 1 }
{
    let _ = story.begin(call, changes)?;
    put(out, label_of(blame))?;
    put_key(out, blame.key)?;
    put(out, ": ")?;
    put_reason(out, story, blame, call)?;
    put(out, "\n")?;
    for followed in &story.history.followed {
        put_moments(out, followed)?;
    }
    Ok(())
}

fn label_of(blame: &Blame) -> &'static str {
    match blame.fault {
        None => "  missing ",
        Some(Fault::PastRoom) => "  beyond  ",
        Some(Fault::Twice) => "  twice   ",
        Some(Fault::NotPending(_)) => "  extra   ",
        Some(Fault::Differs { .. }) => "  differs ",
    }
}

fn put_reason(
    out: &mut Vec<u8>,
    story: &Story<'_>,
    blame: &Blame,
    call: Call,
) -> Result<(), Memory> {
    match blame.fault {
        None => put(
            out,
            "active and enabled, its condition holds, and there was room",
        ),
        Some(Fault::Twice) => put(out, "a call returns a kevent once"),
        Some(Fault::PastRoom) => {
            put(out, "the room was ")?;
            put_number(out, call.room)
        }
        Some(Fault::NotPending(absence)) => {
            let knote = match story.system.kqueue(call.pid, call.fd) {
                Some(kq) => kq.knotes().get(blame.key),
                None => None,
            };
            put_absence(out, absence, knote)
        }
        Some(Fault::Differs { member, expected }) => match &blame.own {
            Some(own) => put_difference(out, member, own, &expected),
            None => Ok(()),
        },
    }
}
