//! The kevents of a kqueue that a record tells something.

use crate::answering::event_due;
use kq_kevent::Kq;
use kq_model::{Filter, Hint, Key, Memory, Target, Views};
use kq_process::Effect;
use std::alloc::Global;

/// A kevent that is told something, and whether its event is returned.
#[derive(Drop, Clone, Copy)]
pub(crate) struct Told {
    pub(crate) key: Key,
    pub(crate) is_returned: bool,
}

impl Told {
    /// One whose event is not returned.
    pub(crate) fn nothing(key: Key) -> Self {
        Told {
            key,
            is_returned: false,
        }
    }
}

/// These, without an event.
pub(crate) fn told_keys(alloc: Global, keys: &[Key]) -> Result<Vec<Told>, Memory> {
    let mut told = Vec::with_capacity(alloc, keys.len()).map_err(|_| Memory)?;
    for key in keys {
        told.push(Told::nothing(*key)).map_err(|_| Memory)?;
    }
    Ok(told)
}

/// Those that a record with this effect tells something: of numbers that it closes, of targets that it touches, and of
/// children that are followed from then on.
pub(crate) fn told_by(alloc: Global, kq: &Kq, effect: &Effect) -> Result<Vec<Told>, Memory> {
    let mut told = Vec::new(alloc);
    for (pid, number) in effect.closed.as_slice() {
        if *pid == kq.owner() {
            put_number(&mut told, *number)?;
        }
    }
    for (target, hint) in effect.hints.as_slice() {
        put_watchers(&mut told, kq, *target)?;
        put_child(&mut told, *hint)?;
    }
    Ok(told)
}

/// Those that watch a number of the process.
fn put_number(told: &mut Vec<Told>, number: u32) -> Result<(), Memory> {
    for filter in [Filter::Read, Filter::Write, Filter::Vnode] {
        let key = Key {
            ident: u64::from(number),
            filter,
        };
        told.push(Told::nothing(key)).map_err(|_| Memory)?;
    }
    Ok(())
}

/// Those that watch a target.
fn put_watchers(told: &mut Vec<Told>, kq: &Kq, target: Target) -> Result<(), Memory> {
    let mut next = kq.knotes().first_watcher(target);
    for _ in 0..kq.knotes().len() {
        let Some(watcher) = next else {
            return Ok(());
        };
        told.push(Told::nothing(watcher.key)).map_err(|_| Memory)?;
        next = kq.knotes().next_watcher(watcher.place, watcher.key);
    }
    Ok(())
}

/// The kevent of a child.
fn put_child(told: &mut Vec<Told>, hint: Hint) -> Result<(), Memory> {
    match hint {
        Hint::Child(child) => {
            let key = Key {
                ident: u64::from(child),
                filter: Filter::Proc,
            };
            told.push(Told::nothing(key)).map_err(|_| Memory)
        }
        _ => Ok(()),
    }
}

/// Those at which a call with this room looks, as the queue stands: from its front, until the room is full.
pub(crate) fn looked_at<V: Views>(
    alloc: Global,
    kq: &Kq,
    room: u32,
    views: &V,
) -> Result<Vec<Told>, Memory> {
    let mut told = Vec::new(alloc);
    let mut left = room;
    let mut next = kq.first_waiting();
    for _ in 0..kq.waiting_len() {
        let Some(key) = next else {
            return Ok(told);
        };
        if left == 0 {
            return Ok(told);
        }
        let is_returned = event_due(kq, key, views).is_some();
        told.push(Told { key, is_returned }).map_err(|_| Memory)?;
        if is_returned {
            left -= 1;
        }
        next = kq.waiting_after(key);
    }
    Ok(told)
}
