//! Whether some order of the queue gives the answer of a call, or what is wrong with it.

ghost use Rattle.std.specs.Prelude.{◌≡◌, ◌≤◌, true, false, [], length, map, min};
ghost use Rattle.std.specs.Prelude.{IsOk, IfOk, IfNone, MatchOption, MatchBool};
ghost use Rattle.kq_model.specs.CallLaws.{key_of_event};
ghost use Rattle.kq_model.specs.declared.kevent.Kevent.{Kevent};
ghost use Rattle.kq_judge.specs.Pending.{IsPending};
ghost use Rattle.kq_model.specs.Knote.{has_key};
ghost use Rattle.kq_model.specs.Kqueue.{AreOnce, IsSound};
ghost use Rattle.kq_model.specs.Retrieval.{retrieval};
ghost use Rattle.kq_judge.specs.Allowed.{IsAllowed, IsGivenInFront, ReturnsTheFirst};
ghost use Rattle.kq_judge.specs.Judged.{AreRight, AreReturned, IsFirstHeldBack, IsJudged};
ghost use Rattle.kq_judge.specs.Judged.{IsOwnFault, IsRightBehind, IsWrongAt};

use crate::absence::{Absence, pending_event};
use crate::member::{Ignored, Member, differing};
use kq_kevent::Kq;
use kq_model::{Kevent, Key, Memory, Views};
use kq_table::Table;
use std::alloc::Global;

/// What is wrong with an event of an answer.
#[derive(Debug, Drop, Clone, Copy, PartialEq, Eq)]
pub enum Fault {
    /// The call had room for no more events than stand before it.
    PastRoom,
    /// Its kevent stands in the answer before it.
    Twice,
    /// Its kevent was not to be returned.
    NotPending(Absence),
    /// Its kevent was to be returned, but by another event.
    Differs {
        /// The first member that differs and is compared.
        member: Member,
        /// The event that had to be returned.
        expected: Kevent,
    },
}

/// What is said of an answer.
#[derive(Debug, Drop, Clone, Copy, PartialEq, Eq)]
pub enum Judgement {
    /// Some order of the queue gives it.
    Allowed,
    /// An event is wrong: the first such one, by its place in the answer, counted from 0.
    Wrong { at: usize, fault: Fault },
    /// There was room left, and this kevent was to be returned: the first such one in the queue.
    Missing { key: Key },
}

/// The kevent of an event.
fn key_of(event: &Kevent) -> Key
    ensures { result ≡ key_of_event event.now }
{
    Key {
        ident: event.ident,
        filter: event.filter,
    }
}

/// Whether an event of this kevent was returned.
pub(crate) fn was_returned(returned: &Table<Key>, key: Key) -> bool
    ensures { result ≡ has_key key returned.now.rows }
{
    returned.contains(key)
}

/// What is wrong with an event, by its own members and the keys of the events before it.
fn fault_in<V: Views>(
    kq: &Kq,
    returned: &Table<Key>,
    event: &Kevent,
    ignored: &[Ignored],
    views: &V,
) -> Option<Fault>
    ensures { MatchOption result
        (IsRightBehind ignored.now (V.sees views.now) kq.now.kq.knotes returned.now.rows event.now)
        (IsOwnFault ignored.now (V.sees views.now) kq.now.kq.knotes returned.now.rows event.now) }
{
    let key = key_of(event);
    if was_returned(returned, key) {
        return Some(Fault::Twice);
    }
    match pending_event(kq, key, views) {
        Err(absence) => Some(Fault::NotPending(absence)),
        Ok(expected) => match differing(&expected, event, ignored) {
            None => None,
            Some(member) => Some(Fault::Differs { member, expected }),
        },
    }
}

/// The first event that is wrong, by its place; where none is, the keys of all are among those returned.
fn first_wrong<V: Views>(
    kq: &Kq,
    room: usize,
    own: &[Kevent],
    ignored: &[Ignored],
    returned: &mut Table<Key>,
    views: &V,
) -> Option<(usize, Fault)>
    requires none { returned.old.rows ≡ [] }
    requires room { min room (length own.now) ≤ returned.old.room }
    ensures wrong { MatchOption result
        (AreRight ignored.now (V.sees views.now) kq.now.kq.knotes own.now × (length own.now ≤ room))
        (λ w. IsWrongAt ignored.now (V.sees views.now) room kq.now.kq.knotes own.now w.0 w.1) }
    ensures returned { IfNone result (returned.new.rows ≡ map key_of_event own.now) }
{
    for (at, event) in own.iter().enumerate() {
        if at == room {
            return Some((at, Fault::PastRoom));
        }
        if let Some(fault) = fault_in(kq, returned, event, ignored, views) {
            return Some((at, fault));
        }
        returned.attach(key_of(event));
    }
    None
}

/// Whether an event of a key is pending that is not among those returned.
fn is_held_back<V: Views>(kq: &Kq, key: Key, returned: &Table<Key>, views: &V) -> bool
    ensures { MatchBool result
        ((e : Kevent) × IsPending (V.sees views.now) kq.now.kq.knotes key e
        × (has_key key returned.now.rows ≡ false))
        ((e : Kevent) → IsPending (V.sees views.now) kq.now.kq.knotes key e
        → has_key key returned.now.rows ≡ true) }
{
    !was_returned(returned, key) && pending_event(kq, key, views).is_ok()
}

/// How many keys wait at most: no more than knotes are registered.
pub(crate) fn most_waiting(kq: &Kq) -> usize
    ensures most { length kq.now.kq.queue ≤ result }
    ensures is { result ≡ length kq.now.kq.knotes }
    // Of every kqueue.
    ensures sound { IsSound kq.now.kq }
{
    kq.knotes().len()
}

/// The first key of the queue, which has no more than so many, of which an event is pending that is not among those
/// returned.
fn first_held_back<V: Views>(kq: &Kq, most: usize, returned: &Table<Key>, views: &V) -> Option<Key>
    requires most { length kq.now.kq.queue ≤ most }
    requires once { AreOnce kq.now.kq.queue }
    ensures { MatchOption result
        (AreReturned (V.sees views.now) kq.now.kq.knotes kq.now.kq.queue returned.now.rows)
        (IsFirstHeldBack (V.sees views.now) kq.now.kq.knotes kq.now.kq.queue returned.now.rows) }
{
    let mut next = kq.first_waiting();
    for _turn in 0..most {
        let Some(key) = next else {
            return None;
        };
        if is_held_back(kq, key, returned, views) {
            return Some(key);
        }
        next = kq.waiting_after(key);
    }
    None
}

/// Judges the answer `own` of a call of kevent(2) that read events: `kq` is its kqueue as the changes of the call left
/// it, which placed no entries, and `room` its nevents. An answer is allowed where some order of the queue gives it,
/// since kqueue(2) leaves the order of events open; the members in `ignored` are not compared. It takes memory for the
/// answer's keys, and time in proportion to the answer and, where events are missing, to the queue.
#[tactic(auto, using(crate::proofs::AllowedLaws::judging))]
pub fn judge<V: Views>(
    alloc: Global,
    kq: &Kq,
    room: u32,
    own: &[Kevent],
    ignored: &[Ignored],
    views: &V,
) -> Result<Judgement, Memory>
    // Allowed exactly where it is; else the first thing that is wrong with it.
    ensures judged { IfOk result (IsJudged ignored.now (V.sees views.now) room kq.now.kq own.now) }

    // The answer of the definitions is allowed.
    ensures model { IsAllowed ignored.now (V.sees views.now) room kq.now.kq
        (retrieval (V.sees views.now) room kq.now.kq).events }

    // Once `Kq::put_first` has put the answer's kevents first, a retrieval gives the answer: so the kqueue that this
    // leaves is the one to go on from.
    ensures in_front { IsAllowed ignored.now (V.sees views.now) room kq.now.kq own.now
        → IsGivenInFront ignored.now (V.sees views.now) room kq.now.kq own.now }

    // A retrieval returns the first of those in the queue whose conditions hold.
    ensures first { ReturnsTheFirst (V.sees views.now) room kq.now.kq }

    // Memory comes only where a key of the answer needs a place.
    ensures ok { min room (length own.now) ≡ 0 → IsOk result }
{
    let room = room as usize;
    let most = most_waiting(kq);
    let mut returned = Table::new(alloc);
    returned.reserve(room.min(own.len()))?;
    if let Some((at, fault)) = first_wrong(kq, room, own, ignored, &mut returned, views) {
        return Ok(Judgement::Wrong { at, fault });
    }
    if own.len() == room {
        return Ok(Judgement::Allowed);
    }
    match first_held_back(kq, most, &returned, views) {
        None => Ok(Judgement::Allowed),
        Some(key) => Ok(Judgement::Missing { key }),
    }
}
