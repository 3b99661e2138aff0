//! Answers, replies and events held against each other.

ghost use Rattle.std.specs.Prelude.{◌≡◌, ◌≤◌, ◌++◌, IfOk, MatchBool, OnOk, length, map, take};
ghost use Rattle.kq_check.specs.Stepped.{listed};
ghost use Rattle.std.specs.List.{filter_map};
ghost use Rattle.kq_model.specs.CallLaws.{key_of_event};
ghost use Rattle.kq_judge.specs.Allowed.{event_due};
ghost use Rattle.kq_judge.specs.Same.{AreSame, IsSame};
ghost use Rattle.kq_check.specs.Replies.{IsReply};

use kq_answers::Given;
use kq_judge::{Ignored, differing};
use kq_kevent::{Kq, event_of, look_in};
use kq_model::{Kevent, Key, Memory, Reply, Views};
use std::alloc::Global;

/// Whether an answer is the reply to the record, to the last member.
pub fn is_reply(given: &Given, reply: &Reply) -> bool
    ensures { MatchBool result (IsReply given.now reply.now) (IsReply given.now reply.now → ⊥) }
{
    match (given, reply) {
        (Given::Events(own), Reply::Events(events)) => are_same(
            events.as_slice(),
            own.as_slice(),
            &[],
        ),
        (Given::Failed(number), Reply::Failed(error)) => *number == error.code(),
        (Given::Impossible(own), Reply::Impossible(why)) => *own == *why,
        _ => false,
    }
}

/// The events that the queue of a kqueue gives as it stands. It looks at the knotes at which a retrieval looks, and at
/// no others.
pub fn events_in_order<V: Views>(
    alloc: Global,
    kq: &Kq,
    room: u32,
    views: &V,
) -> Result<Vec<Kevent>, Memory>
    ensures { IfOk result (λ events. events.items
        ≡ take room (filter_map (event_due (V.sees views.now) kq.now.kq.knotes) kq.now.kq.queue)) }
{
    let room = room as usize;
    let mut events = Vec::new(alloc);
    let mut next = kq.first_waiting();
    for _turn in 0..kq.waiting_len() {
        let Some(key) = next else {
            return Ok(events);
        };
        if events.len() == room {
            return Ok(events);
        }
        put_due(&mut events, room, event_due(kq, key, views))?;
        next = kq.waiting_after(key);
    }
    Ok(events)
}

/// Puts an event behind the others, if there is one, and room for it.
fn put_due(events: &mut Vec<Kevent>, room: usize, due: Option<Kevent>) -> Result<(), Memory>
    requires { length events.old.items ≤ room }
    ensures { OnOk result (events.new.items ≡ take room (events.old.items ++ listed due)) }
{
    match due {
        Some(event) if events.len() < room => events.push(event).map_err(|_| Memory),
        _ => Ok(()),
    }
}

/// The event of a key's knote, where its condition holds.
pub(crate) fn event_due<V: Views>(kq: &Kq, key: Key, views: &V) -> Option<Kevent>
    ensures { result ≡ event_due (V.sees views.now) kq.now.kq.knotes key }
{
    let knote = kq.knotes().get(key)?;
    let seen = look_in(views, &knote)?;
    Some(event_of(&knote, seen))
}

/// Whether these are the events, one by one, but for members that are not compared.
pub fn are_same(events: &[Kevent], own: &[Kevent], ignored: &[Ignored]) -> bool
    ensures { MatchBool result (AreSame ignored.now events.now own.now)
        (AreSame ignored.now events.now own.now → ⊥) }
{
    let mut expected = events;
    let mut rest = own;
    'events: while !expected.is_empty() && !rest.is_empty() {
        if !is_same(&expected[0], &rest[0], ignored) {
            return false;
        }
        expected = &expected[1..];
        rest = &rest[1..];
    }
    expected.is_empty() && rest.is_empty()
}

fn is_same(event: &Kevent, own: &Kevent, ignored: &[Ignored]) -> bool
    ensures { MatchBool result (IsSame ignored.now event.now own.now) (IsSame ignored.now event.now own.now → ⊥) }
{
    key_of(event) == key_of(own) && differing(event, own, ignored).is_none()
}

/// What an event is the event of.
pub fn key_of(event: &Kevent) -> Key
    ensures { result ≡ key_of_event event.now }
{
    Key {
        ident: event.ident,
        filter: event.filter,
    }
}

/// The kevents of events.
pub fn keys_of(alloc: Global, events: &[Kevent]) -> Result<Vec<Key>, Memory>
    ensures { IfOk result (λ keys. keys.items ≡ map key_of_event events.now) }
{
    let mut keys = Vec::with_capacity(alloc, events.len()).map_err(|_| Memory)?;
    for event in events {
        keys.push(key_of(event)).map_err(|_| Memory)?;
    }
    Ok(keys)
}
