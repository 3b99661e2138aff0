//! A short rising list of places of birth, which most often needs no memory of its own.

ghost use Rattle.std.specs.Prelude.{◌≡◌, ◌∷◌, [], true, IfOk, OnOk};
ghost use Rattle.kq_system.specs.Places.{KeepsPlaces, has_place};

use kq_model::Memory;
use smallvec::SmallVec;
use std::alloc::Global;
use std::marker::Model;

/// So many places stand where the list itself stands. Most targets are watched by one kqueue.
const PLACES_OF_MOST: usize = 2;

/// Places of birth of kqueues, rising, each once.
#[derive(Drop)]
pub struct Places {
    list: SmallVec<u64, PLACES_OF_MOST>,
}

impl Model for Places {
    ghost use Rattle.std.specs.Prelude.{ℕ, List};

    ghost Value = { List ℕ };

    ghost view = { λ p. p.list.items };
}

impl Places {
    /// One place alone.
    pub fn one(alloc: Global, place: u64) -> Result<Self, Memory>
        ensures { IfOk result (λ p. p ≡ place ∷ []) }
    {
        let mut list = SmallVec::new(alloc);
        list.push(place)?;
        Ok(Places { list })
    }

    pub fn as_slice(&self) -> &[u64]
        ensures { result.now ≡ self.now }
    {
        self.list.as_slice()
    }

    pub fn has(&self, place: u64) -> bool
        ensures { result ≡ true → has_place place self.now ≡ true }
    {
        match self.list.binary_search(&place) {
            Ok(_) => true,
            Err(_) => false,
        }
    }

    /// One place more, where it is not there.
    pub fn add(&mut self, place: u64) -> Result<(), Memory>
        ensures kept { KeepsPlaces self.old self.new }
        ensures added { OnOk result (has_place place self.new ≡ true) }
    {
        match self.list.binary_search(&place) {
            Ok(_) => Ok(()),
            Err(index) => {
                self.list.insert(index, place)?;
                Ok(())
            }
        }
    }
}
