//! All knotes of a kqueue: registered, found, modified and removed, and their alarms with them.

ghost use Rattle.std.specs.Prelude.{List, ◌≡◌, ◌<◌, ◌≤◌, ◌+◌, ◌++◌, ◌↔◌};
ghost use Rattle.std.specs.Prelude.{◌∷◌, IsTrue, true, [], None, OnOk, OnErr};
ghost use Rattle.std.specs.Prelude.{if◌then◌else◌, Some, MatchOption, slice_get, length, filter, not, max};
ghost use Rattle.std.specs.Option.{option_copied, option_map};
ghost use Rattle.kq_model.specs.Close.{is_of_number};
ghost use Rattle.kq_model.specs.Hearing.{listed};
ghost use Rattle.kq_model.specs.Knote as model;
ghost use Rattle.kq_model.specs.Knote.{key_eq, find_knote, with_knote, without_key, without_knote};
ghost use Rattle.kq_model.specs.Recast.{tallied_knote, tallied_knotes};
ghost use Rattle.kq_model.specs.Tallied as tallied;
ghost use Rattle.kq_model.specs.Ticks.{last_moment};
ghost use Rattle.kq_knote.specs.Quiet.{AreLater, AreQuiet};
ghost use Rattle.kq_table.specs.Rows.{row_after};

use crate::Knote;
use crate::arming::{put_changed, put_new};
use kq_alarm::Alarms;
use kq_model::{Filter, Key, Memory};
use kq_table::{Birth, Place, Placed, Table};
use std::alloc::Global;
use std::marker::Model;

/// The knotes of one kqueue: a list in order of registration, at most one of each key, the queue of
/// those that are to be returned, and the room that was reserved for further ones. No call but the two
/// that reserve takes memory, and each takes constant time, spread over many, but where it says
/// otherwise.
#[derive(Drop)]
pub struct Knotes {
    /// The knotes, by key and by what they watch, and the queue.
    pub(crate) rows: Table<Knote>,
    /// Room for the keys of knotes that hints are for. What stands in it means nothing.
    pub(crate) keys: Vec<Key>,
    /// Room for where their knotes stand.
    pub(crate) places: Vec<Birth>,
    /// After this moment of the clock,
    pub(crate) since: u64,
    /// and before this one, no timer expires.
    pub(crate) soonest: u64,
    /// When each timer expires first after `since`, and others of before.
    pub(crate) alarms: Alarms,
    /// The alarms have had room for each of them.
    pub(crate) alarmed: bool,
    /// Room for the keys of timers that expire. What stands in it means nothing.
    pub(crate) due: Vec<Key>,
}

impl Model for Knotes {
    ghost use Rattle.kq_knote.specs.Reserved.{Reserved};

    ghost Value = { Reserved };

    ghost use Rattle.kq_knote.specs.Index.{IsKept};

    ghost view = { λ k. record { knotes = k.rows.rows; queue = k.rows.queue; room = k.rows.room } };

    ghost invariant = { λ k. IsKept k.rows.rows k.since k.soonest k.alarmed k.alarms };
}

impl Knotes {
    /// No knotes, and no room.
    pub fn new(alloc: Global) -> Self
        ensures knotes { result.knotes ≡ [] }
        ensures queue { result.queue ≡ [] }
        ensures room { result.room ≡ 0 }
    {
        Knotes {
            rows: Table::new(alloc),
            keys: Vec::new(alloc),
            places: Vec::new(alloc),
            since: 0,
            soonest: 0,
            alarms: Alarms::new(alloc),
            alarmed: true,
            due: Vec::new(alloc),
        }
    }

    pub fn allocator(&self) -> Global {
        self.rows.allocator()
    }

    pub fn len(&self) -> usize
        ensures { result ≡ length self.now.knotes }
    {
        self.rows.len()
    }

    pub fn is_empty(&self) -> bool
        ensures { IsTrue result ↔ (self.now.knotes ≡ []) }
    {
        self.rows.is_empty()
    }

    /// How many further knotes fit without memory.
    pub fn room(&self) -> usize
        ensures { result ≡ self.now.room }
    {
        self.rows.room()
    }

    /// Makes the room at least `more`; changes nothing else. After `Memory` nothing has changed.
    pub fn reserve(&mut self, more: usize) -> Result<(), Memory>
        ensures knotes { self.new.knotes ≡ self.old.knotes }
        ensures queue { self.new.queue ≡ self.old.queue }
        ensures room { OnOk result (self.new.room ≡ max self.old.room more) }
        ensures err { OnErr result (self.new.room ≡ self.old.room) }

        // Memory comes only where the room was missing.
        ensures missing { OnErr result (self.old.room < more) }
    {
        if more <= self.room() {
            return Ok(());
        }
        self.rows.reserve(more)?;
        self.reserve_lists();
        Ok(())
    }

    /// Makes room for the keys of all knotes that fit, and for where these stand. Where memory is wanting,
    /// hints find the knotes of their targets by a walk over all; nothing else depends on it.
    fn reserve_lists(&mut self)
        ensures { self.new ≡ self.old }
    {
        let knotes = self.rows.len().saturating_add(self.rows.room());
        self.keys.clear();
        let _ = self.keys.reserve(knotes);
        self.places.clear();
        let _ = self.places.reserve(knotes);
    }

    /// A guess of where the knote of a key stands.
    pub fn guess(&self, key: Key) -> Place {
        self.rows.guess(key)
    }

    /// The knote of a key.
    pub fn get(&self, key: Key) -> Option<Knote>
        ensures knote { result ≡ find_knote key self.now.knotes }

        // The same of knotes that keep all that they heard.
        ensures model { (ms : List (model.Knote listed)) → self.now.knotes ≡ tallied_knotes ms
            → result ≡ option_map tallied_knote (find_knote key ms) }
    {
        self.rows.find(key)
    }

    /// The knote of a key with its place, where `modify_at` and `remove_at` find it without a search.
    pub fn locate(&self, key: Key) -> Option<Placed<Knote>>
        ensures knote { option_map (λ p. p.row) result ≡ find_knote key self.now.knotes }

        // The same of knotes that keep all that they heard.
        ensures model { (ms : List (model.Knote listed)) → self.now.knotes ≡ tallied_knotes ms
            → option_map (λ p. p.row) result ≡ option_map tallied_knote (find_knote key ms) }
    {
        self.rows.locate(key)
    }

    /// The knote of a key with its place; it is looked up only where it does not stand at the guessed place.
    pub fn locate_at(&self, guess: Place, key: Key) -> Option<Placed<Knote>>
        ensures knote { option_map (λ p. p.row) result ≡ find_knote key self.now.knotes }

        // The same of knotes that keep all that they heard.
        ensures model { (ms : List (model.Knote listed)) → self.now.knotes ≡ tallied_knotes ms
            → option_map (λ p. p.row) result ≡ option_map tallied_knote (find_knote key ms) }
    {
        self.rows.locate_at(guess, key)
    }

    /// The knote of a key, without a copy. Where it stands at the guessed place, that is all that is looked at.
    pub fn look_at(&self, guess: Place, key: Key) -> Option<&Knote>
        ensures { option_copied result ≡ find_knote key self.now.knotes }
    {
        self.rows.look_at(guess, key)
    }

    /// The knote of a key, where it stands at the guessed place.
    #[inline(always)]
    pub fn look_there(&self, guess: Place, key: Key) -> Option<&Knote>
        ensures { (knote : tallied.Knote) → option_copied result ≡ Some knote
            → find_knote key self.now.knotes ≡ Some knote }
    {
        self.rows.look_there(guess, key)
    }

    /// The knote that was registered first.
    pub fn first(&self) -> Option<Knote>
        ensures { result ≡ slice_get self.now.knotes 0 }
    {
        self.rows.first()
    }

    /// The knote that was registered next after that of a key; None where that is the last, or not
    /// here.
    pub fn next_after(&self, key: Key) -> Option<Knote>
        ensures { result ≡ row_after key_eq (λ k. k.key) key self.now.knotes }
    {
        self.rows.next_after(key)
    }

    /// Adds a knote of a new key behind the others, and gives the place where it stands. It uses up room
    /// for one.
    pub fn attach(&mut self, knote: Knote) -> Place
        requires room { 0 < self.old.room }
        requires absent { find_knote knote.key self.old.knotes ≡ None }
        ensures knotes { self.new.knotes ≡ self.old.knotes ++ knote ∷ [] }
        ensures queue { self.new.queue ≡ self.old.queue }
        ensures room { self.new.room + 1 ≡ self.old.room }

        // The same of knotes that keep all that they heard.
        ensures model { (ms : List (model.Knote listed)) (m : model.Knote listed)
            → self.old.knotes ≡ tallied_knotes ms
            → knote ≡ tallied_knote m → self.new.knotes ≡ tallied_knotes (ms ++ m ∷ []) }
    {
        let first = knote.first_after(self.since);
        self.soonest = self.soonest.min(first);
        self.alarmed = put_new(&mut self.alarms, self.alarmed, knote.key.ident, first);
        self.rows.attach(knote)
    }

    /// Puts a knote in the place of the one of its key; where there is none, nothing changes.
    pub fn modify(&mut self, knote: Knote)
        ensures knotes { self.new.knotes ≡ with_knote knote self.old.knotes }
        ensures queue { self.new.queue ≡ self.old.queue }
        ensures room { self.new.room ≡ self.old.room }

        // The same of knotes that keep all that they heard.
        ensures model { (ms : List (model.Knote listed)) (m : model.Knote listed)
            → self.old.knotes ≡ tallied_knotes ms
            → knote ≡ tallied_knote m → self.new.knotes ≡ tallied_knotes (with_knote m ms) }
    {
        if let Some(found) = self.locate(knote.key) {
            self.modify_at(found.place, knote);
        }
    }

    /// Puts a knote in the place of the one of its key, which is looked up only where it does not stand at the
    /// guessed place; where there is none, nothing changes.
    pub fn modify_at(&mut self, guess: Place, knote: Knote)
        ensures knotes { self.new.knotes ≡ with_knote knote self.old.knotes }
        ensures queue { self.new.queue ≡ self.old.queue }
        ensures room { self.new.room ≡ self.old.room }

        // The same of knotes that keep all that they heard.
        ensures model { (ms : List (model.Knote listed)) (m : model.Knote listed)
            → self.old.knotes ≡ tallied_knotes ms
            → knote ≡ tallied_knote m → self.new.knotes ≡ tallied_knotes (with_knote m ms) }
    {
        if self.modify_there(guess, &knote) {
            return;
        }
        self.modify_anew(guess, knote);
    }

    /// Puts a knote in the place of the one of its key, where that stands at the guessed place, watches the same
    /// target and expires at the same moments, and says whether it did; else nothing changes.
    #[inline(always)]
    fn modify_there(&mut self, guess: Place, knote: &Knote) -> bool
        ensures knotes { self.new.knotes
            ≡ (if result then with_knote knote.now self.old.knotes else self.old.knotes) }
        ensures queue { self.new.queue ≡ self.old.queue }
        ensures room { self.new.room ≡ self.old.room }
    {
        let Some(before) = self.rows.look_there(guess, knote.key) else {
            return false;
        };
        if !knote.rings_with(before) {
            return false;
        }
        self.rows.modify_there(guess, knote)
    }

    /// Puts a knote in the place of the one of its key, wherever that stands, whatever it watches and whenever it
    /// expires; where there is none, nothing changes.
    #[inline(never)]
    fn modify_anew(&mut self, guess: Place, knote: Knote)
        ensures knotes { self.new.knotes ≡ with_knote knote self.old.knotes }
        ensures queue { self.new.queue ≡ self.old.queue }
        ensures room { self.new.room ≡ self.old.room }
    {
        let Some(before) = self.rows.look_at(guess, knote.key) else {
            return;
        };
        self.alarmed = put_changed(
            before,
            &knote,
            self.since,
            &mut self.soonest,
            &mut self.alarms,
            self.alarmed,
        );
        self.rows.modify_at(guess, knote);
    }

    /// Takes out the knote of a key, where there is one, and the key from the queue. It gives its room back.
    pub fn remove(&mut self, key: Key) -> Option<Knote>
        ensures removed { result ≡ find_knote key self.old.knotes }
        ensures knotes { self.new.knotes ≡ without_knote key self.old.knotes }
        ensures queue { self.new.queue ≡ without_key key self.old.queue }
        ensures room { MatchOption result (self.new.room ≡ self.old.room)
            (λ _. self.new.room ≡ self.old.room + 1) }
        ensures limit { length self.new.knotes + self.new.room ≡ length self.old.knotes + self.old.room }

        // The same of knotes that keep all that they heard.
        ensures model { (ms : List (model.Knote listed)) → self.old.knotes ≡ tallied_knotes ms
            → (result ≡ option_map tallied_knote (find_knote key ms))
            × (self.new.knotes ≡ tallied_knotes (without_knote key ms)) }
    {
        self.remove_at(self.guess(key), key)
    }

    /// Takes out the knote of a key and its key from the queue, as `remove` does; no search by key is made where
    /// the knote stands at the guessed place.
    pub fn remove_at(&mut self, guess: Place, key: Key) -> Option<Knote>
        ensures removed { result ≡ find_knote key self.old.knotes }
        ensures knotes { self.new.knotes ≡ without_knote key self.old.knotes }
        ensures queue { self.new.queue ≡ without_key key self.old.queue }
        ensures room { MatchOption result (self.new.room ≡ self.old.room)
            (λ _. self.new.room ≡ self.old.room + 1) }
        ensures limit { length self.new.knotes + self.new.room ≡ length self.old.knotes + self.old.room }

        // The same of knotes that keep all that they heard.
        ensures model { (ms : List (model.Knote listed)) → self.old.knotes ≡ tallied_knotes ms
            → (result ≡ option_map tallied_knote (find_knote key ms))
            × (self.new.knotes ≡ tallied_knotes (without_knote key ms)) }
    {
        self.rows.remove_at(guess, key)
    }

    /// Takes out the READ, WRITE and VNODE knotes of a descriptor number, three keys at most, and their
    /// keys from the queue. They give their room back.
    pub fn remove_descriptor(&mut self, number: u32)
        ensures knotes { self.new.knotes ≡ filter (λ k. not (is_of_number number k.key)) self.old.knotes }
        ensures queue { self.new.queue ≡ filter (λ key. not (is_of_number number key)) self.old.queue }
        ensures limit { length self.new.knotes + self.new.room ≡ length self.old.knotes + self.old.room }

        // The same of knotes that keep all that they heard.
        ensures model { (ms : List (model.Knote listed)) → self.old.knotes ≡ tallied_knotes ms
            → self.new.knotes ≡ tallied_knotes (filter (λ k. not (is_of_number number k.key)) ms) }
    {
        let ident = u64::from(number);
        self.remove(Key {
            ident,
            filter: Filter::Read,
        });
        self.remove(Key {
            ident,
            filter: Filter::Write,
        });
        self.remove(Key {
            ident,
            filter: Filter::Vnode,
        });
    }

    /// Whether no timer is known to expire after the moment `from` and not after `to`; where some do,
    /// it says no.
    pub fn is_quiet(&self, from: u64, to: u64) -> bool
        requires ordered { from ≤ to }
        requires within { to ≤ last_moment }
        ensures { result ≡ true → AreLater from to self.now.knotes }
    {
        if from < self.since {
            return false;
        }
        if self.soonest <= to {
            return false;
        }
        true
    }

    /// From now on it is known that after the moment `since` no timer expires before `soonest`. It
    /// changes nothing.
    pub fn note_quiet(&mut self, since: u64, soonest: u64)
        requires within { since ≤ last_moment }
        requires quiet { AreQuiet since soonest self.old.knotes }
        ensures { self.new ≡ self.old }
    {
        self.alarmed = false;
        self.since = since;
        self.soonest = soonest;
    }
}
