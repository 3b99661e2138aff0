//! What a call returned, and why it did not return the others.

ghost use Rattle.std.specs.Prelude.{◌^◌, ◌<◌, ◌-◌};

use crate::text::{put_absence, put_key, put_moments, put_place, put_reply};
use kq_check::{Call, Followed, History, Story, call_of, event_at, story_before};
use kq_judge::{Outcome, Verdict, keys_looked_at, verdict_of};
use kq_knote::{Knote, Knotes};
use kq_model::{Change, Key, Memory, Reply, Trace};
use kq_text::{put, put_number};
use std::alloc::Global;

/// What became of one kevent in a call, and its knote once the changes were through.
#[derive(Drop, Clone, Copy)]
struct Told {
    verdict: Verdict,
    knote: Option<Knote>,
}

/// What a call answers, and what became of each kevent in it.
#[derive(Drop)]
struct CallEnd {
    reply: Reply,
    told: Vec<Told>,
}

/// What became of each kevent of a kqueue in the call at a place; none where the record there is no call.
pub fn explained(alloc: Global, trace: &Trace, at: u64) -> Result<Option<Vec<u8>>, Memory> {
    let Some(event) = event_at(trace, at) else {
        return Ok(None);
    };
    let Some((call, changes)) = call_of(event) else {
        return Ok(None);
    };
    let text = call_text(alloc, trace, at, call, changes)?;
    Ok(Some(text))
}

fn call_text(
    alloc: Global,
    trace: &Trace,
    at: u64,
    call: Call,
    changes: &[Change],
) -> Result<Vec<u8>, Memory>
    requires small { at < 2 ^ 31 }
    requires positive { 0 < at }
{
    let keys = keys_at(alloc, trace, at, call, changes)?;
    text_with(alloc, trace, at, call, changes, keys.as_slice())
}

/// What became of these kevents in the call at a place.
fn text_with(
    alloc: Global,
    trace: &Trace,
    at: u64,
    call: Call,
    changes: &[Change],
    keys: &[Key],
) -> Result<Vec<u8>, Memory>
    requires small { at < 2 ^ 31 }
    requires positive { 0 < at }
{
    let all = History::new(alloc, call.pid, call.fd, keys)?;
    let mut story = story_before(alloc, trace, &[], &[], at, all)?;
    text_after(alloc, &mut story, at, call, changes, keys)
}

/// What became of these kevents in the call to which a story has come.
fn text_after(
    alloc: Global,
    story: &mut Story<'_>,
    at: u64,
    call: Call,
    changes: &[Change],
    keys: &[Key],
) -> Result<Vec<u8>, Memory>
    requires { story.old.system.applied < 2 ^ 31 - 1 }
{
    let ended = ended(alloc, story, keys, call, changes)?;
    text_of(alloc, at, call, &story.history, &ended)
}

/// The call with its answer, and each kevent with its verdict and what it went through.
fn text_of(
    alloc: Global,
    at: u64,
    call: Call,
    history: &History,
    ended: &CallEnd,
) -> Result<Vec<u8>, Memory> {
    let mut out = Vec::new(alloc);
    put(&mut out, "the call at ")?;
    put_place(&mut out, at)?;
    put(&mut out, ": room ")?;
    put_number(&mut out, call.room)?;
    put(&mut out, "\n  answer  ")?;
    put_reply(&mut out, &ended.reply)?;
    put(&mut out, "\n")?;
    for (followed, one) in history.followed.iter().zip(&ended.told) {
        put_told(&mut out, followed, one)?;
    }
    Ok(out)
}

/// Carries out a call, and tells what became of these kevents.
fn ended(
    alloc: Global,
    story: &mut Story<'_>,
    keys: &[Key],
    call: Call,
    changes: &[Change],
) -> Result<CallEnd, Memory>
    requires { story.old.system.applied < 2 ^ 31 - 1 }
{
    let begun = story.begin(call, changes)?;
    let told = all_told(alloc, story, keys, call, outcome_of(&begun, call))?;
    let reply = match begun {
        Some(reply) => reply,
        None => story.read(call, None)?,
    };
    Ok(CallEnd { reply, told })
}

/// How a call goes on that began so.
fn outcome_of(begun: &Option<Reply>, call: Call) -> Outcome {
    match begun {
        None => Outcome::Read(call.room),
        Some(Reply::Failed(_)) => Outcome::Failed,
        Some(_) => Outcome::EntriesPlaced,
    }
}

/// The kevents of which a call can say something: those that are registered once its changes are through, and those of
/// its changes.
fn keys_at(
    alloc: Global,
    trace: &Trace,
    at: u64,
    call: Call,
    changes: &[Change],
) -> Result<Vec<Key>, Memory>
    requires small { at < 2 ^ 31 }
    requires positive { 0 < at }
{
    let nobody = History::new(alloc, 0, 0, &[])?;
    let mut story = story_before(alloc, trace, &[], &[], at, nobody)?;
    keys_after(alloc, &mut story, call, changes)
}

/// The kevents of which the call can say something to which a story has come.
fn keys_after(
    alloc: Global,
    story: &mut Story<'_>,
    call: Call,
    changes: &[Change],
) -> Result<Vec<Key>, Memory>
    requires { story.old.system.applied < 2 ^ 31 - 1 }
{
    let _ = story.begin(call, changes)?;
    match story.system.kqueue(call.pid, call.fd) {
        Some(kq) => keys_in(alloc, kq.knotes(), changes),
        None => Ok(Vec::new(alloc)),
    }
}

fn keys_in(alloc: Global, knotes: &Knotes, changes: &[Change]) -> Result<Vec<Key>, Memory> {
    let mut keys = Vec::new(alloc);
    let mut next = knotes.first();
    for _ in 0..knotes.len() {
        if let Some(knote) = next {
            keys.push(knote.key).map_err(|_| Memory)?;
            next = knotes.next_after(knote.key);
        }
    }
    for change in changes {
        let key = change.key();
        if knotes.get(key).is_none() && !keys.contains(&key) {
            keys.push(key).map_err(|_| Memory)?;
        }
    }
    Ok(keys)
}

/// What becomes of each kevent in a call whose changes are through.
fn all_told(
    alloc: Global,
    story: &Story<'_>,
    keys: &[Key],
    call: Call,
    outcome: Outcome,
) -> Result<Vec<Told>, Memory> {
    let mut told = Vec::with_capacity(alloc, keys.len()).map_err(|_| Memory)?;
    let Some(kq) = story.system.kqueue(call.pid, call.fd) else {
        return Ok(told);
    };
    let world = story.system.world();
    let looked_at = keys_looked_at(alloc, kq, outcome, world)?;
    for key in keys {
        let one = Told {
            verdict: verdict_of(kq, outcome, &looked_at, *key, world),
            knote: kq.knotes().get(*key),
        };
        told.push(one).map_err(|_| Memory)?;
    }
    Ok(told)
}

/// Adds a kevent with its verdict, and what it went through.
fn put_told(out: &mut Vec<u8>, followed: &Followed, told: &Told) -> Result<(), Memory> {
    put(out, "  ")?;
    put_key(out, followed.key)?;
    put(out, ": ")?;
    match told.verdict {
        Verdict::Returned => put(out, "returned")?,
        Verdict::Absent(absence) => put_absence(out, absence, told.knote)?,
        Verdict::RoomWasFull => put(out, "in the queue, but the room was full")?,
        Verdict::EntriesPlaced => put(out, "in the queue, but entries were placed")?,
        Verdict::CallFailed => put(out, "in the queue, but the call failed")?,
    }
    put(out, "\n")?;
    put_moments(out, followed)
}
