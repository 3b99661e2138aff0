//! The keys of the timers that expire in a span, as a list that is taken and given back.

ghost use Rattle.std.specs.Prelude.{◌≡◌, ◌<◌, ◌≤◌, ◌+◌, true, map, All, MatchOption};
ghost use Rattle.kq_model.specs.Ticks.{last_moment};
ghost use Rattle.kq_knote.specs.Expiring.{expiring};

use crate::Knotes;
use crate::arming::{arm_all, arm_due};
use crate::due::{gather_due, next_due};
use kq_model::Key;
use std::mem::replace;

/// The last moment of the clock.
pub(crate) const LAST_MOMENT: u64 = i64::MAX as u64;

impl Knotes {
    /// The keys of the timers that expire after the moment `from` and not after `to`, in the order of
    /// their first expirations, of two at one moment the one first that was registered first; in time as
    /// a sort of them takes. None where the alarms do not tell them: where there was no room for
    /// them, or they are of a later moment. It takes no memory. The knotes stay as they are; it is taken
    /// that these timers get their expirations next.
    pub fn take_expiring(&mut self, from: u64, to: u64) -> Option<Vec<Key>>
        requires ordered { from ≤ to }
        requires within { to ≤ last_moment }
        ensures knotes { self.new ≡ self.old }
        ensures keys { MatchOption result (Unit {0})
            (λ keys. keys.items ≡ map (λ k. k.key) (expiring from to self.old.knotes)) }
    {
        self.arm();
        self.take_told(from, to)
    }

    /// The keys that `take_expiring` gives, as the alarms tell them; None where these are not whole, or do not
    /// tell them.
    fn take_told(&mut self, from: u64, to: u64) -> Option<Vec<Key>>
        requires ordered { from ≤ to }
        requires within { to ≤ last_moment }
        ensures knotes { self.new ≡ self.old }
        ensures keys { MatchOption result (Unit {0})
            (λ keys. keys.items ≡ map (λ k. k.key) (expiring from to self.old.knotes)) }
    {
        if !self.alarmed {
            return None;
        }
        if from < self.since {
            return None;
        }
        let earliest = next_due(&self.alarms, LAST_MOMENT);
        if earliest <= from {
            return None;
        }
        self.alarmed = false;
        if !gather_due(
            &self.rows,
            from,
            to,
            &mut self.alarms,
            &mut self.due,
            &mut self.keys,
            &mut self.places,
        ) {
            return None;
        }
        if !arm_due(&self.rows, &self.due, to, &mut self.alarms) {
            return None;
        }
        self.since = to;
        self.soonest = next_due(&self.alarms, LAST_MOMENT);
        self.alarmed = true;
        let alloc = self.rows.allocator();
        Some(replace(&mut self.due, Vec::new(alloc)))
    }

    /// Takes back the list that `take_expiring` gave, so that its room serves the next record.
    pub fn give_back_expiring(&mut self, keys: Vec<Key>)
        ensures { self.new ≡ self.old }
    {
        self.due = keys;
    }

    /// Where the alarms are not whole, they are made anew, if they have room. It takes a walk over the
    /// knotes, and changes nothing.
    fn arm(&mut self)
        ensures { self.new ≡ self.old }
    {
        if self.alarmed {
            return;
        }
        self.alarms.clear();
        self.alarmed = arm_all(&self.rows, self.since, &mut self.alarms);
    }

    /// Makes room for the alarms of so many further timers, and for the keys of all that may expire in
    /// one record. Where it is wanting, by memory or since it was not asked for, timers are found by
    /// a walk over all knotes; nothing else depends on it.
    pub fn reserve_timers(&mut self, more: usize)
        ensures { self.new ≡ self.old }
    {
        if more <= self.alarms.room() {
            return;
        }
        self.alarmed = false;
        self.alarms.clear();
        // More alarms than knotes, so that they are seldom made anew.
        let knotes = self.rows.len().saturating_add(more);
        self.alarms.reserve(knotes.saturating_add(knotes));
        // All of them may come up in one record.
        let alarms = self.alarms.room();
        self.due.clear();
        let _ = self.due.reserve(alarms);
        self.keys.clear();
        let _ = self.keys.reserve(alarms);
        self.places.clear();
        let _ = self.places.reserve(alarms);
        self.arm();
    }
}
