//! Under which key the object of a place is kept: a list for near places, a map for far ones.

ghost use Rattle.std.specs.Prelude.{◌≡◌, ◌≢◌, ℕ, nat_eq, ◌+◌, ◌<◌, ◌≤◌, cond};
ghost use Rattle.std.specs.Prelude.{◌==◌, None, Some, OnOk, slice_get};
ghost use Rattle.std.specs.HashMap.{get, spare};
ghost use Rattle.kq_objects.specs.Keys.{key_of, key_in, listed_key};

use kq_model::Memory;
use std::alloc::Global;
use std::collections::HashMap;

/// Every place below this one is near.
const NEAR: u64 = 1 << 20;

/// So many places more are near for each object that is kept.
const NEAR_EACH: u64 = 64;

/// The keys of objects, by the place of each. A list has those of near places, four bytes a place up to the farthest
/// of them, and a map has those of far ones.
#[derive(Drop)]
pub struct Keys {
    near: Vec<u32>,
    far: HashMap<u64, usize>,
}

/// The key that an entry of the list tells: one less than the entry, and none by 0.
fn key_in(entry: u32) -> Option<usize>
    ensures { result ≡ key_in entry }
{
    if entry == 0 {
        return None;
    }
    Some(entry as usize - 1)
}

/// The entry that tells a key, or 0 if no entry can.
fn entry_of(key: usize) -> u32
    ensures { result ≢ 0 → result ≡ key + 1 }
{
    match u32::try_from(key) {
        Ok(key) if key < u32::MAX => key + 1,
        _ => 0,
    }
}

/// Whether the list should reach a place, where so many objects are kept.
fn is_near(place: u64, kept: usize) -> bool {
    place < NEAR || place / NEAR_EACH < kept as u64
}

impl Keys {
    pub fn new(alloc: Global) -> Self
        ensures { (q : ℕ) → key_of result q ≡ None }
    {
        Keys {
            near: Vec::new(alloc),
            far: HashMap::new(alloc),
        }
    }

    /// Makes room for one more key, that of this place, where so many objects are kept.
    pub fn reserve(&mut self, place: u64, kept: usize) -> Result<(), Memory>
        ensures same { (q : ℕ) → key_of self.new q ≡ key_of self.old q }
        ensures room { OnOk result (0 < spare self.new.far) }
        ensures kept { spare self.old.far ≤ spare self.new.far }
    {
        self.far.reserve(1)?;
        if place >= self.near.len() as u64 && is_near(place, kept) {
            self.reach(place)?;
        }
        Ok(())
    }

    /// Makes the list reach a place.
    #[inline(never)]
    fn reach(&mut self, place: u64) -> Result<(), Memory>
        ensures same { (q : ℕ) → key_of self.new q ≡ key_of self.old q }
        ensures kept { self.new.far ≡ self.old.far }
    {
        let entries = self.near.len();
        let wanted = (place as usize)
            .saturating_add(1)
            .max(entries.saturating_mul(2));
        if entries < wanted {
            self.near.resize(wanted, 0)?;
        }
        Ok(())
    }

    #[inline(always)]
    pub fn get(&self, place: u64) -> Option<usize>
        ensures { result ≡ key_of self.now place }
    {
        match self.listed(place) {
            Some(key) => Some(key),
            None => self.far_key(place),
        }
    }

    /// The key that the map has.
    #[inline(never)]
    fn far_key(&self, place: u64) -> Option<usize>
        ensures { result ≡ get nat_eq self.now.far place }
    {
        if self.far.is_empty() {
            return None;
        }
        self.far.get(&place).copied()
    }

    /// The key that the list tells.
    fn listed(&self, place: u64) -> Option<usize>
        ensures { result ≡ listed_key (slice_get self.now.near.items place) }
    {
        key_in(*self.near.get(place as usize)?)
    }

    /// From here on the place has this key.
    pub fn put(&mut self, place: u64, key: usize)
        requires { 0 < spare self.old.far }
        ensures put { (q : ℕ) → key_of self.new q ≡ cond (place == q) (Some key) (key_of self.old q) }
        ensures room { spare self.old.far ≤ spare self.new.far + 1 }
    {
        let entry = entry_of(key);
        if let Some(near) = self.near.get_mut(place as usize) {
            *near = entry;
            if entry != 0 {
                return;
            }
        }
        let _ = self.far.insert(place, key);
    }

    /// From here on the place has no key.
    pub fn forget(&mut self, place: u64)
        ensures forgotten { (q : ℕ) → key_of self.new q ≡ cond (place == q) None (key_of self.old q) }
        ensures room { spare self.old.far ≤ spare self.new.far }
    {
        if let Some(near) = self.near.get_mut(place as usize) {
            *near = 0;
        }
        self.forget_far(place);
    }

    /// The map has no key of the place from here on.
    #[inline(never)]
    fn forget_far(&mut self, place: u64)
        ensures near { self.new.near ≡ self.old.near }
        ensures far { (q : ℕ) → get nat_eq self.new.far q ≡ cond (place == q) None (get nat_eq self.old.far q) }
        ensures room { spare self.old.far ≤ spare self.new.far }
    {
        if !self.far.is_empty() {
            let _ = self.far.remove(&place);
        }
    }
}
