//! The clock goes on: timers get their expirations, by alarms or by walks over all knotes.

ghost use Rattle.std.specs.Prelude.{◌≡◌, ℤ, pos, ◌≤ℤ◌, unsigned_abs, ◌<◌, ◌≤◌};
ghost use Rattle.std.specs.Prelude.{◌+◌, ◌∷◌, Some, [], map, min, nat_le};
ghost use Rattle.std.specs.Prelude.{if◌then◌else◌, MatchOption};
ghost use Rattle.kq_model.specs.Clock.{clocked};
ghost use Rattle.kq_model.specs.Hearing.{listed};
ghost use Rattle.kq_model.specs.Knote.{find_knote};
ghost use Rattle.kq_model.specs.Kqueue.{IsSound, Kqueue};
ghost use Rattle.kq_model.specs.Recast as recast;
ghost use Rattle.kq_model.specs.Ticks.{last_moment};
ghost use Rattle.kq_model.specs.Views as world;
ghost use Rattle.kq_model.specs.WatchedNumbers.{WatchTheirNumbers};
ghost use Rattle.kq_knote.specs.Expiring.{expiring};
ghost use Rattle.kq_kevent.specs.Owned.{limit, span_of};
ghost use Rattle.kq_kevent.specs.Ringing.{AreOutside, IsClocked, IsReached, firsts_at, rung_each, with_rung};

use crate::Kq;
use kq_knote::Knote;
use kq_model::Key;
use kq_table::Placed;

/// The last moment of the clock.
pub(crate) const LAST_MOMENT: u64 = i64::MAX as u64;

/// The lesser of two moments, where the first is after `low`; else the second.
fn nearer(low: u64, first: u64, least: u64) -> u64
    ensures { result ≡ (if nat_le first low then least else min least first) }
{
    if first <= low {
        least
    } else {
        least.min(first)
    }
}

impl Kq {
    /// The clock goes on from the moment `from` to the moment `to`, in nanoseconds: each timer gets an
    /// expiration for each time that it expires after `from` and not after `to` and becomes active,
    /// and those that are enabled and not in the queue go to its back in the order of their first
    /// expirations, of two at one moment the one first that was registered first (kqueue(2),
    /// EVFILT_TIMER; the order is this project's choice). It takes no memory.
    pub fn clock(&mut self, from: i64, to: i64)
        requires past { pos 0 ≤ℤ from }
        requires ordered { from ≤ℤ to }
        ensures kq { self.new.kq ≡ clocked (Some (span_of from to)) self.old.kq }

        // What this comes to for a user: each knote has its expirations and stays as it is otherwise,
        // and the queue keeps what it has.
        ensures laws { IsClocked (unsigned_abs from) (unsigned_abs to) self.old.kq self.new.kq }

        // Any moment between may be stopped at: so the expirations of many steps add up.
        ensures steps { (between : ℤ) → from ≤ℤ between → between ≤ℤ to
            → self.new.kq ≡ clocked (Some (span_of between to))
            (clocked (Some (span_of from between)) self.old.kq) }

        // The same in the words of the definitions, which keep all that was heard.
        ensures model { (m : Kqueue listed) → self.old.kq ≡ recast.tallied m
            → self.new.kq ≡ recast.tallied (clocked (Some (span_of from to)) m) }

        // Where the READ, WRITE and VNODE knotes watch what their numbers name, they still do.
        ensures named { (views : world.Views) → WatchTheirNumbers views self.old.owner self.old.kq
            → WatchTheirNumbers views self.old.owner self.new.kq }

        ensures owner { self.new.owner ≡ self.old.owner }
        ensures version { self.new.version ≡ self.old.version }
        ensures room { self.new.room ≡ self.old.room }
        ensures limit { limit self.new ≡ limit self.old }
    {
        self.pass(from.unsigned_abs(), to.unsigned_abs());
    }

    /// The clock goes on between two moments, of which neither is past the last one.
    fn pass(&mut self, from: u64, to: u64)
        requires ordered { from ≤ to }
        requires within { to ≤ last_moment }
        ensures kq { self.new.kq ≡ clocked (Some (record { from = from; to = to })) self.old.kq }
        ensures sound { IsSound self.old.kq }
        ensures owner { self.new.owner ≡ self.old.owner }
        ensures version { self.new.version ≡ self.old.version }
        ensures room { self.new.room ≡ self.old.room }
        ensures limit { limit self.new ≡ limit self.old }
    {
        if self.knotes.is_quiet(from, to) {
            return;
        }
        self.ring_due(from, to);
    }

    /// All timers ring that expire, in the order of their first expirations: those that the alarms tell, or
    /// else by walks over all knotes.
    fn ring_due(&mut self, from: u64, to: u64)
        requires ordered { from ≤ to }
        requires within { to ≤ last_moment }
        ensures kq { self.new.kq ≡ clocked (Some (record { from = from; to = to })) self.old.kq }
        ensures owner { self.new.owner ≡ self.old.owner }
        ensures version { self.new.version ≡ self.old.version }
        ensures room { self.new.room ≡ self.old.room }
        ensures limit { limit self.new ≡ limit self.old }
    {
        let Some(due) = self.knotes.take_expiring(from, to) else {
            self.ring_all(from, to);
            self.foresee(to);
            return;
        };
        self.ring_each(due.as_slice(), from, to);
        self.knotes.give_back_expiring(due);
    }

    /// The timers ring of which these are the keys, one after the other: all that expire.
    fn ring_each(&mut self, keys: &[Key], from: u64, to: u64)
        requires keys { keys.now ≡ map (λ k. k.key) (expiring from to self.old.kq.knotes) }
        requires sound { IsSound self.old.kq }
        requires ordered { from ≤ to }
        requires within { to ≤ last_moment }
        ensures kq { self.new.kq ≡ clocked (Some (record { from = from; to = to })) self.old.kq }
        ensures owner { self.new.owner ≡ self.old.owner }
        ensures version { self.new.version ≡ self.old.version }
        ensures room { self.new.room ≡ self.old.room }
        ensures limit { limit self.new ≡ limit self.old }
    {
        for key in keys {
            self.ring_key(*key, from, to);
        }
    }

    /// The knote of a key rings, where there is one.
    fn ring_key(&mut self, key: Key, from: u64, to: u64)
        requires ordered { from ≤ to }
        requires within { to ≤ last_moment }
        ensures kq { MatchOption (find_knote key self.old.kq.knotes) (self.new.kq ≡ self.old.kq)
            (λ knote. self.new.kq ≡ with_rung from to knote self.old.kq) }
        ensures owner { self.new.owner ≡ self.old.owner }
        ensures version { self.new.version ≡ self.old.version }
        ensures room { self.new.room ≡ self.old.room }
        ensures limit { limit self.new ≡ limit self.old }
    {
        let place = self.knotes.guess(key);
        let Some(knote) = self.knotes.look_there(place, key) else {
            self.ring_elsewhere(key, from, to);
            return;
        };
        let found = Placed { row: *knote, place };
        let mut rung = found.row;
        rung.ring(from, to);
        self.put_back(&found, rung);
    }

    /// The knote of a key rings, where there is one, wherever it stands.
    #[inline(never)]
    fn ring_elsewhere(&mut self, key: Key, from: u64, to: u64)
        requires ordered { from ≤ to }
        requires within { to ≤ last_moment }
        ensures kq { MatchOption (find_knote key self.old.kq.knotes) (self.new.kq ≡ self.old.kq)
            (λ knote. self.new.kq ≡ with_rung from to knote self.old.kq) }
        ensures owner { self.new.owner ≡ self.old.owner }
        ensures version { self.new.version ≡ self.old.version }
        ensures room { self.new.room ≡ self.old.room }
        ensures limit { limit self.new ≡ limit self.old }
    {
        let Some(found) = self.knotes.locate(key) else {
            return;
        };
        self.ring(&found, from, to);
    }

    /// Notes when the next timer expires after the moment `since`, so that until then the clock need
    /// not look at the knotes. It changes nothing.
    fn foresee(&mut self, since: u64)
        requires { since ≤ last_moment }
        ensures { self.new ≡ self.old }
    {
        let soonest = self.next_moment(since, since, LAST_MOMENT);
        self.knotes.note_quiet(since, soonest);
    }

    /// All timers ring that expire, by walks over all knotes, two for each moment at which one expires first.
    fn ring_all(&mut self, from: u64, to: u64)
        requires sound { IsSound self.old.kq }
        requires ordered { from ≤ to }
        requires within { to ≤ last_moment }
        ensures kq { self.new.kq ≡ clocked (Some (record { from = from; to = to })) self.old.kq }
        ensures owner { self.new.owner ≡ self.old.owner }
        ensures version { self.new.version ≡ self.old.version }
        ensures room { self.new.room ≡ self.old.room }
        ensures limit { limit self.new ≡ limit self.old }
    {
        let mut moment = self.next_moment(from, from, to);
        while moment <= to {
            self.ring_at(moment, from, to);
            moment = self.next_moment(from, moment, to);
        }
    }

    /// The first moment after `low` at which a timer expires that did not expire up to `low`, or the one behind `to`
    /// where that is less; of each timer its first expiration after `from` counts alone.
    pub(crate) fn next_moment(&self, from: u64, low: u64, to: u64) -> u64
        requires begun { from ≤ low }
        requires ordered { low ≤ to }
        requires within { to ≤ last_moment }
        ensures later { low < result }
        ensures bounded { result ≤ to + 1 }
        ensures none { AreOutside from low result self.now.kq.knotes }
        ensures reached { IsReached from to self.now.kq.knotes result }
    {
        let mut least = to + 1;
        let mut next = self.knotes.first();
        for _step in 0..self.knotes.len() {
            let Some(knote) = next else {
                return least;
            };
            let first = knote.first_after(from);
            least = nearer(low, first, least);
            next = self.knotes.next_after(knote.key);
        }
        least
    }

    /// The timers ring that expire first after `from` at this moment, in order of registration.
    fn ring_at(&mut self, moment: u64, from: u64, to: u64)
        requires ordered { from ≤ to }
        requires within { to ≤ last_moment }
        ensures kq { self.new.kq ≡ rung_each from to (firsts_at from moment self.old.kq.knotes) self.old.kq }
        ensures owner { self.new.owner ≡ self.old.owner }
        ensures version { self.new.version ≡ self.old.version }
        ensures room { self.new.room ≡ self.old.room }
        ensures limit { limit self.new ≡ limit self.old }
    {
        let mut next = self.knotes.first();
        for _step in 0..self.knotes.len() {
            let Some(knote) = next else {
                return;
            };
            next = self.knotes.next_after(knote.key);
            self.ring_if_first(knote, moment, from, to);
        }
    }

    /// A knote rings where it expires first after `from` at this moment.
    fn ring_if_first(&mut self, knote: Knote, moment: u64, from: u64, to: u64)
        requires there { find_knote knote.key self.old.kq.knotes ≡ Some knote }
        requires ordered { from ≤ to }
        requires within { to ≤ last_moment }
        ensures kq { self.new.kq ≡ rung_each from to (firsts_at from moment (knote ∷ [])) self.old.kq }
        ensures owner { self.new.owner ≡ self.old.owner }
        ensures version { self.new.version ≡ self.old.version }
        ensures room { self.new.room ≡ self.old.room }
        ensures limit { limit self.new ≡ limit self.old }
    {
        if knote.first_after(from) == moment {
            self.ring_key(knote.key, from, to);
        }
    }

    /// A knote gets its expirations, and its key goes where it belongs.
    fn ring(&mut self, found: &Placed<Knote>, from: u64, to: u64)
        requires there { find_knote found.now.row.key self.old.kq.knotes ≡ Some found.now.row }
        requires ordered { from ≤ to }
        requires within { to ≤ last_moment }
        ensures kq { self.new.kq ≡ with_rung from to found.now.row self.old.kq }
        ensures owner { self.new.owner ≡ self.old.owner }
        ensures version { self.new.version ≡ self.old.version }
        ensures room { self.new.room ≡ self.old.room }
        ensures limit { limit self.new ≡ limit self.old }
    {
        let mut rung = found.row;
        rung.ring(from, to);
        self.put_back(found, rung);
    }
}
