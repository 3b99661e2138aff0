//! What some kevents of one kqueue went through: of each, how it stands and its last moments.

use crate::became::{Part, Step, step_of};
use crate::told::{Told, looked_at, told_by, told_keys};
use crate::verdict::Call;
use kq_knote::{Knote, Knotes};
use kq_model::{Change, Event, Filter, Key, Memory};
use kq_process::Effect;
use kq_system::System;
use std::alloc::Global;
use std::collections::HashMap;

/// How many moments of a kevent are kept, the last ones.
const MOST_MOMENTS: usize = 8;

/// What became of a kevent at a place, by a record of this name.
#[derive(Drop, Clone, Copy)]
pub struct Moment {
    pub at: u64,
    pub record: &'static str,
    pub step: Step,
}

/// A kevent that is followed: how it stands now, and what it went through.
#[derive(Drop)]
pub struct Followed {
    pub key: Key,
    knote: Option<Knote>,
    /// How many moments came before those that are kept.
    pub earlier: u64,
    /// The last moments, the earliest first.
    pub moments: Vec<Moment>,
}

/// The kevents that are followed, of the kqueue that a number of a process names.
#[derive(Drop)]
pub struct History {
    pid: u32,
    fd: u32,
    pub followed: Vec<Followed>,
    indexes: HashMap<Key, usize>,
    timers: Vec<Key>,
    /// Whether something was noted since the number named no kqueue.
    is_begun: bool,
}

impl History {
    /// Nothing so far, of the kevents with these keys.
    pub fn new(alloc: Global, pid: u32, fd: u32, keys: &[Key]) -> Result<Self, Memory> {
        let mut history = History {
            pid,
            fd,
            followed: Vec::with_capacity(alloc, keys.len()).map_err(|_| Memory)?,
            indexes: HashMap::new(alloc),
            timers: Vec::new(alloc),
            is_begun: false,
        };
        for key in keys {
            history.follow(alloc, *key)?;
        }
        Ok(history)
    }

    fn follow(&mut self, alloc: Global, key: Key) -> Result<(), Memory> {
        let index = self.followed.len();
        let _ = self.indexes.insert(key, index).map_err(|_| Memory)?;
        if key.filter == Filter::Timer {
            self.timers.push(key).map_err(|_| Memory)?;
        }
        let one = Followed {
            key,
            knote: None,
            earlier: 0,
            moments: Vec::new(alloc),
        };
        self.followed.push(one).map_err(|_| Memory)
    }

    /// Whether a call is one of the kqueue that is followed. A kqueue has one number alone.
    fn is_of(&self, call: Call) -> bool {
        call.pid == self.pid && call.fd == self.fd
    }

    /// What a record, which is no call and has this effect, tells kevents of the kqueue. A step of the clock tells each
    /// timer.
    pub(crate) fn told_by(
        &self,
        alloc: Global,
        system: &System,
        event: &Event,
        effect: &Effect,
    ) -> Result<Vec<Told>, Memory> {
        match (event, system.kqueue(self.pid, self.fd)) {
            (_, None) => Ok(Vec::new(alloc)),
            (Event::Clock { .. }, Some(_)) => told_keys(alloc, self.timers.as_slice()),
            (_, Some(kq)) => told_by(alloc, kq, effect),
        }
    }

    /// What the changes of a call tell kevents of the kqueue.
    pub(crate) fn told_by_changes(
        &self,
        alloc: Global,
        call: Call,
        changes: &[Change],
    ) -> Result<Vec<Told>, Memory> {
        let mut told = Vec::new(alloc);
        if self.is_of(call) {
            for change in changes {
                told.push(Told::nothing(change.key())).map_err(|_| Memory)?;
            }
        }
        Ok(told)
    }

    /// At which kevents of the kqueue a call looks that reads events now.
    pub(crate) fn looked_at(
        &self,
        alloc: Global,
        system: &System,
        call: Call,
    ) -> Result<Vec<Told>, Memory> {
        match system.kqueue(call.pid, call.fd) {
            Some(kq) if self.is_of(call) => { looked_at(alloc, kq, call.room, system.world()) }
            _ => Ok(Vec::new(alloc)),
        }
    }

    /// Notes what a part of a record did to those that it told something. Where the number names no kqueue all that was
    /// noted is of an earlier one.
    pub(crate) fn note(
        &mut self,
        system: &System,
        record: &'static str,
        part: Part,
        told: &[Told],
    ) -> Result<(), Memory> {
        let at = system.applied();
        match system.kqueue(self.pid, self.fd) {
            Some(kq) => self.note_all(kq.knotes(), Place { at, record, part }, told),
            None => {
                self.forget();
                Ok(())
            }
        }
    }

    fn note_all(&mut self, knotes: &Knotes, place: Place, told: &[Told]) -> Result<(), Memory> {
        for one in told {
            self.note_one(knotes, place, *one)?;
        }
        Ok(())
    }

    fn note_one(&mut self, knotes: &Knotes, place: Place, told: Told) -> Result<(), Memory> {
        let Some(index) = self.indexes.get(&told.key) else {
            return Ok(());
        };
        let index = *index;
        let Some(followed) = self.followed.get_mut(index) else {
            return Ok(());
        };
        self.is_begun = true;
        followed.note(knotes, place, told.is_returned)
    }

    fn forget(&mut self) {
        if !self.is_begun {
            return;
        }
        self.is_begun = false;
        for one in &mut self.followed {
            one.knote = None;
            one.earlier = 0;
            one.moments.clear();
        }
    }
}

/// A part of a record at a place.
#[derive(Drop, Clone, Copy)]
struct Place {
    at: u64,
    record: &'static str,
    part: Part,
}

impl Followed {
    /// Notes what became of it.
    fn note(&mut self, knotes: &Knotes, place: Place, is_returned: bool) -> Result<(), Memory> {
        let after = knotes.get(self.key);
        if let Some(step) = step_of(place.part, self.knote, after, is_returned) {
            let moment = Moment {
                at: place.at,
                record: place.record,
                step,
            };
            self.keep(moment)?;
        }
        self.knote = knotes.get(self.key);
        Ok(())
    }

    /// Keeps a moment, and no more than there is room for.
    fn keep(&mut self, moment: Moment) -> Result<(), Memory> {
        if self.moments.len() >= MOST_MOMENTS {
            let _ = self.moments.remove(0);
            self.earlier = self.earlier.saturating_add(1);
        }
        self.moments.push(moment).map_err(|_| Memory)
    }
}
