//! The places of kqueues under a process or a target, and when such an index is to be made anew.

ghost use Rattle.std.specs.Prelude.{◌≡◌, true, OnOk};
ghost use Rattle.kq_system.specs.Places.{Grows, has_place, places_at};

use crate::places::Places;
use kq_model::Memory;
use std::alloc::Global;
use std::collections::HashMap;
use std::hash::Hash;

/// So much may be put in before it is worth while to look what is gone.
const FEW: usize = 64;

/// Which kqueues go with a key: their places of birth.
#[derive(Drop)]
pub struct Index<K: Copy + Eq + Hash> {
    table: HashMap<K, Places>,
    alloc: Global,
    /// How many places were put under keys.
    added: usize,
    /// With so many it is full.
    bound: usize,
}

impl<K: Copy + Eq + Hash> Index<K> {
    pub fn new(alloc: Global) -> Self {
        Index {
            table: HashMap::new(alloc),
            alloc,
            added: 0,
            bound: FEW,
        }
    }

    /// Whether so much was put in that it is worth while to make it anew of what is still there.
    pub fn is_full(&self) -> bool {
        self.bound <= self.added
    }

    /// Sets when it is full next: where twice as much was put in as now, and as many places more as
    /// there were steps in making it.
    pub fn settle(&mut self, steps: usize)
        ensures { self.new.table ≡ self.old.table }
    {
        let more = self.added.saturating_add(steps).saturating_add(FEW);
        self.bound = self.added.saturating_add(more);
    }

    /// The places under a key.
    pub fn at(&self, key: K) -> &[u64]
        ensures { result.now ≡ places_at K.eq self.now.table key }
    {
        match self.table.get(&key) {
            Some(places) => places.as_slice(),
            None => &[],
        }
    }

    /// Whether a place is found under a key.
    fn has(&self, key: K, place: u64) -> bool
        ensures { result ≡ true → has_place place (places_at K.eq self.now.table key) ≡ true }
    {
        match self.table.get(&key) {
            Some(places) => places.has(place),
            None => false,
        }
    }

    /// Puts a place under a key, where it is not there. After `Memory` it may be there or not.
    pub fn add(&mut self, key: K, place: u64) -> Result<(), Memory>
        ensures grows { Grows K.eq self.old.table self.new.table }
        ensures added { OnOk result (has_place place (places_at K.eq self.new.table key) ≡ true) }
    {
        if self.has(key, place) {
            return Ok(());
        }
        self.added = self.added.saturating_add(1);
        match self.table.get_mut(&key) {
            Some(places) => places.add(place),
            None => {
                let places = Places::one(self.alloc, place)?;
                self.table.insert(key, places)?;
                Ok(())
            }
        }
    }
}
