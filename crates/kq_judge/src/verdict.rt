//! What became of a kevent in a call: returned, without an event, or not reached, and why.

ghost use Rattle.std.specs.Prelude.{◌≡◌, ◌≤◌, ◌<◌, ◌-◌, ℕ, if◌then◌else◌, [], IfOk};
ghost use Rattle.std.specs.Prelude.{IsOk, MatchBool, length};
ghost use Rattle.kq_model.specs.Kqueue.{IsSound};
ghost use Rattle.kq_judge.specs.Allowed.{event_due};
ghost use Rattle.kq_model.specs.declared.kevent.Kevent.{Kevent};
ghost use Rattle.kq_judge.specs.Pending.{IsPending};
ghost use Rattle.kq_judge.specs.Verdicts.{IsVerdict, ReturnsOfThoseLookedAt};
ghost use Rattle.kq_judge.specs.Verdicts.{keys_looked_at, looked_at, verdict_in_queue};

use crate::absence::{Absence, pending_event};
use crate::judging::{most_waiting, was_returned};
use kq_kevent::Kq;
use kq_model::{Key, Memory, Views};
use kq_table::Table;
use std::alloc::Global;

/// How a call of kevent(2) went on once its changes were through.
#[derive(Debug, Drop, Clone, Copy, PartialEq, Eq)]
pub enum Outcome {
    /// It failed.
    Failed,
    /// Its changes placed entries, or ended it where there was no room for one; so it read no events.
    EntriesPlaced,
    /// It read events, at most so many.
    Read(u32),
}

/// What became of a kevent in a call.
#[derive(Debug, Drop, Clone, Copy, PartialEq, Eq)]
pub enum Verdict {
    /// It was returned.
    Returned,
    /// It had no event to return. It is idle where the call looked at it and found its condition gone.
    Absent(Absence),
    /// It stands in the queue, and the room was full before its turn came.
    RoomWasFull,
    /// It stands in the queue, and the call read no events, since its changes placed entries.
    EntriesPlaced,
    /// It stands in the queue, and the call failed.
    CallFailed,
}

/// Whether an event of a key is pending, which takes up room.
fn is_pending<V: Views>(kq: &Kq, key: Key, views: &V) -> bool
    ensures { MatchBool result
        ((e : Kevent) × IsPending (V.sees views.now) kq.now.kq.knotes key e)
        ((e : Kevent) → IsPending (V.sees views.now) kq.now.kq.knotes key e → ⊥) }
{
    pending_event(kq, key, views).is_ok()
}

/// The room that is left behind a look, which found an event or none.
fn room_behind(left: u32, found: bool) -> u32
    requires { 0 < left }
    ensures { result ≡ (if found then left - 1 else left) }
{
    if found { left - 1 } else { left }
}

/// Finds the keys that are looked at where there is room for so many events: no more than `most`, which is no less than
/// the queue is long.
fn look_along<V: Views>(kq: &Kq, room: u32, most: usize, keys: &mut Table<Key>, views: &V)
    requires sound { IsSound kq.now.kq }
    requires most { length kq.now.kq.queue ≤ most }
    requires none { keys.old.rows ≡ [] }
    requires room { most ≤ keys.old.room }
    ensures { keys.new.rows
        ≡ looked_at (event_due (V.sees views.now) kq.now.kq.knotes) room kq.now.kq.queue }
{
    let mut left = room;
    let mut next = kq.first_waiting();
    for _turn in 0..most {
        let Some(key) = next else {
            return;
        };
        if left == 0 {
            return;
        }
        keys.attach(key);
        left = room_behind(left, is_pending(kq, key, views));
        next = kq.waiting_after(key);
    }
}

/// The keys at whose knotes a call looked that had this outcome, in order: those of the queue from its front, until
/// there was no room for another event; none where it read no events. `kq` is its kqueue as the changes of the call
/// left it.
#[tactic(auto, using(crate::proofs::VerdictLaws::returns_looked))]
pub fn keys_looked_at<V: Views>(
    alloc: Global,
    kq: &Kq,
    outcome: Outcome,
    views: &V,
) -> Result<Table<Key>, Memory>
    ensures keys { IfOk result (λ keys. keys.rows ≡ keys_looked_at outcome (V.sees views.now) kq.now.kq) }

    // Their events, where they have some, are what the retrieval returns.
    ensures returned { (room : ℕ) → ReturnsOfThoseLookedAt (V.sees views.now) room kq.now.kq }

    // Memory comes only where a key needs a place.
    ensures ok { kq.now.kq.knotes ≡ [] → IsOk result }
{
    let most = most_waiting(kq);
    let mut looked_at = Table::new(alloc);
    if let Outcome::Read(room) = outcome {
        looked_at.reserve(most)?;
        look_along(kq, room, most, &mut looked_at, views);
    }
    Ok(looked_at)
}

/// What became of a key in the queue, where `found` is what a look at its knote finds.
fn verdict_in_queue(outcome: Outcome, looked_at: bool, found: Verdict) -> Verdict
    ensures { result ≡ verdict_in_queue outcome looked_at found }
{
    match outcome {
        Outcome::Failed => Verdict::CallFailed,
        Outcome::EntriesPlaced => Verdict::EntriesPlaced,
        Outcome::Read(_) if looked_at => found,
        Outcome::Read(_) => Verdict::RoomWasFull,
    }
}

/// What became of a kevent in a call that had this outcome: `kq` is its kqueue as the changes of the call left it, and
/// `looked_at` the keys that [`keys_looked_at`] gives for it. It takes the same time for any kqueue.
pub fn verdict_of<V: Views>(
    kq: &Kq,
    outcome: Outcome,
    looked_at: &Table<Key>,
    key: Key,
    views: &V,
) -> Verdict
    requires { looked_at.now.rows ≡ keys_looked_at outcome (V.sees views.now) kq.now.kq }
    ensures is { IsVerdict outcome (V.sees views.now) kq.now.kq key result }

    // And no other verdict is.
    ensures alone { (other : Verdict) → IsVerdict outcome (V.sees views.now) kq.now.kq key other
        → other ≡ result }
{
    let looked = was_returned(looked_at, key);
    match pending_event(kq, key, views) {
        Ok(_) => verdict_in_queue(outcome, looked, Verdict::Returned),
        Err(Absence::Idle) => { verdict_in_queue(outcome, looked, Verdict::Absent(Absence::Idle)) }
        Err(Absence::NotRegistered) => Verdict::Absent(Absence::NotRegistered),
        Err(Absence::Disabled) => Verdict::Absent(Absence::Disabled),
        Err(Absence::NotActive { holds }) => Verdict::Absent(Absence::NotActive { holds }),
    }
}
