//! A store in which each object is found by its place, and each file by its number.

ghost use Rattle.std.specs.Prelude.{◌≡◌, ℕ, ◌+◌, ◌≤◌, cond, ◌==◌, None, Some, MatchOption, OnOk};
ghost use Rattle.std.specs.Option.{option_copied};
ghost use Rattle.kq_model.specs.Objects.{told_at};
ghost use Rattle.kq_objects.specs.ByPlace.{object_at, room_in, IsKeyOf};

use crate::keys::Keys;
use crate::object::Object;
use kq_model::Memory;
use slab::Slab;
use std::alloc::Global;

/// An object, with its place.
#[derive(Drop)]
pub struct Placed<T> {
    place: u64,
    pub(crate) object: T,
}

/// Objects by their places: sockets, pipes and descriptions by the place of the record that made them, files by their
/// numbers. Each has its place beside it, so that `keys` may be wrong about places of which there is none.
#[derive(Drop)]
pub struct ByPlace<T> {
    keys: Keys,
    pub(crate) slab: Slab<Placed<T>>,
}

impl<T: Drop> ByPlace<T> {
    pub fn new(alloc: Global) -> Self
        ensures { (q : ℕ) → object_at result q ≡ None }
    {
        ByPlace {
            keys: Keys::new(alloc),
            slab: Slab::new(alloc),
        }
    }

    /// Makes room for one more, at this place.
    pub fn reserve(&mut self, place: u64) -> Result<(), Memory>
        ensures same { (q : ℕ) → object_at self.new q ≡ object_at self.old q }
        ensures room { OnOk result (1 ≤ room_in self.new) }
        ensures kept { room_in self.old ≤ room_in self.new }
    {
        self.keys.reserve(place, self.slab.len())?;
        Ok(self.slab.reserve(1)?)
    }

    /// The key of the object of a place.
    #[inline(always)]
    pub fn key_of(&self, place: u64) -> Option<usize>
        ensures { MatchOption result (object_at self.now place ≡ None) (IsKeyOf place self.now) }
    {
        let key = self.keys.get(place)?;
        match self.slab.get(key) {
            Some(placed) if placed.place == place => Some(key),
            _ => None,
        }
    }

    #[inline(always)]
    pub fn get(&self, place: u64) -> Option<&T>
        ensures { option_copied result ≡ object_at self.now place }
    {
        match self.slab.get(self.keys.get(place)?) {
            Some(placed) if placed.place == place => Some(&placed.object),
            _ => None,
        }
    }

    /// Puts an object at a place.
    pub fn put(&mut self, place: u64, object: T)
        requires { 1 ≤ room_in self.old }
        ensures put { (q : ℕ) → object_at self.new q ≡ cond (place == q) (Some object) (object_at self.old q) }
        ensures room { room_in self.old ≤ room_in self.new + 1 }
    {
        let key = self.slab.insert_reserved(Placed { place, object });
        self.keys.put(place, key);
    }

    /// Takes out the object of a place, which stands under this key.
    #[inline(never)]
    fn remove(&mut self, place: u64, key: usize)
        requires { IsKeyOf place self.old key }
        ensures removed { (q : ℕ) → object_at self.new q ≡ cond (place == q) None (object_at self.old q) }
        ensures room { room_in self.old ≤ room_in self.new }
    {
        let _ = self.slab.try_remove(key);
        self.keys.forget(place);
    }
}

impl<T: Object> ByPlace<T> {
    /// Notes one more record of the object at a place, which is there from its first record until
    /// no descriptor names it any more.
    pub fn tell(&mut self, place: u64, told: T::Record)
        requires fits { T.fits told (object_at self.old place) }
        requires room { T.makes told ≤ room_in self.old }
        ensures done { (q : ℕ) → object_at self.new q
            ≡ told_at T.book T.stays place told (object_at self.old) q }
        ensures room { room_in self.old ≤ room_in self.new + T.makes told }
    {
        let Some(key) = self.key_of(place) else {
            self.make(place, told);
            return;
        };
        let Some(placed) = self.slab.get_mut(key) else {
            return;
        };
        placed.object.tell(told);
        if !placed.object.is_held() {
            self.remove(place, key);
        }
    }

    /// Notes the first record of an object.
    #[inline(never)]
    fn make(&mut self, place: u64, told: T::Record)
        requires absent { object_at self.old place ≡ None }
        requires fits { T.fits told None }
        requires room { T.makes told ≤ room_in self.old }
        ensures done { (q : ℕ) → object_at self.new q
            ≡ told_at T.book T.stays place told (object_at self.old) q }
        ensures room { room_in self.old ≤ room_in self.new + T.makes told }
    {
        self.put(place, T::first(told));
    }
}
