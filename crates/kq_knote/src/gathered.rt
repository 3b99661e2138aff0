//! The keys of the knotes that hints are for, as a list that is taken and given back.

ghost use Rattle.std.specs.Prelude.{◌≡◌, IsTrue, MatchOption};
ghost use Rattle.kq_knote.specs.Index.{AreHinted, hinted_keys};

use crate::Knotes;
use crate::hinted::is_shared;
use kq_model::{Hint, Key, Target};
use kq_table::Place;
use std::mem::replace;

impl Knotes {
    /// The keys of the knotes that watch a hinted target, in order of registration, in time as a sort
    /// of them takes. None where there is no room for the keys, or a hint is for no shared target. Where all hints are
    /// for one target, `first_watcher` needs no room. It takes no memory.
    pub fn take_hinted(&mut self, posted: &[(Target, Hint)]) -> Option<Vec<Key>>
        ensures knotes { self.new ≡ self.old }
        ensures keys { MatchOption result (Unit {0}) (λ keys. keys.items ≡ hinted_keys posted.now self.old.knotes) }
    {
        let alloc = self.rows.allocator();
        let mut keys = replace(&mut self.keys, Vec::new(alloc));
        if self.gather(posted, &mut keys) && keys.len() <= self.places.capacity() {
            self.rows.put_in_order(&mut keys, &mut self.places);
            return Some(keys);
        }
        self.give_back(keys);
        None
    }

    /// A guess of where the knote stands whose key has this index in the list that `take_hinted` gave last.
    pub fn place_of(&self, index: usize) -> Place {
        match self.places.get(index) {
            None => Place::nowhere(),
            Some(birth) => birth.place(),
        }
    }

    /// Takes back the list that `take_hinted` gave, so that its room serves the next record.
    pub fn give_back(&mut self, keys: Vec<Key>)
        ensures { self.new ≡ self.old }
    {
        self.keys = keys;
    }

    /// Finds the keys of the knotes that watch a hinted target, in no order. Where a hint is for no shared
    /// target, or `found` has no room for all, it is false.
    fn gather(&self, posted: &[(Target, Hint)], found: &mut Vec<Key>) -> bool
        ensures { IsTrue result → AreHinted posted.now self.now.knotes found.new.items }
    {
        found.clear();
        for hint in posted {
            if !is_shared(Some(hint.0)) {
                return false;
            }
            if !self.rows.watching(hint.0, found) {
                return false;
            }
        }
        true
    }
}
