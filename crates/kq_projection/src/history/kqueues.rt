//! The kqueues of a trace by place of birth, with their owners and what concerns each.

ghost use Rattle.std.specs.Prelude.{◌≡◌, ◌<◌, ◌++◌, ◌∷◌, [], ℕ, length, slice_index};
ghost use Rattle.std.specs.Prelude.{None, IfOk, IfSome, OnOk};
ghost use Rattle.std.specs.List.{Contains};
ghost use Rattle.std.specs.List.Sorted.{IsStrictlyIncreasing};
ghost use Rattle.kq_projection.specs.declared.history.kqueues.Concerned.{Concerned};
ghost use Rattle.kq_projection.specs.Kqueues.{IsAbsent, IsAlone, IsAtPlace, IsNamedAt, IsNew};
ghost use Rattle.kq_projection.specs.Sources.{call_sources, Grows};

use crate::history::item::Source;
use crate::history::sources::Sources;
use kq_model::{Change, Memory, Views};
use std::alloc::Global;

/// A kqueue's owner, and the sources of what concerns it.
#[derive(Drop)]
pub struct Concerned {
    pub owner: u32,
    pub sources: Sources,
}

impl Concerned {
    /// A new kqueue, which is concerned by its calls.
    pub fn new(alloc: Global, place: u64, owner: u32) -> Result<Self, Memory>
        ensures { IfOk result (IsNew place owner) }
    {
        let sources = Sources::one(alloc, Source::Kqueue(place))?;
        Ok(Concerned { owner, sources })
    }

    /// A call of the kqueue: what its changes name concerns it.
    pub fn name_all<V: Views>(&mut self, changes: &[Change], views: &V) -> Result<(), Memory>
        ensures owner { self.new.owner ≡ self.old.owner }
        ensures named { OnOk result (Grows (call_sources (V.sees views.now) self.old.owner changes.now)
            self.old.sources self.new.sources) }
    {
        self.sources.name_all(self.owner, changes, views)
    }
}

/// The kqueues that a trace makes, by rising place of birth.
#[derive(Drop)]
pub struct Kqueues {
    /// Where they were made.
    pub(crate) places: Vec<u64>,
    /// Who owns each, and what concerns it.
    pub(crate) concerned: Vec<Concerned>,
    alloc: Global,
}

impl Kqueues {
    /// No kqueue.
    pub fn new(alloc: Global) -> Self
        ensures places { result.places.items ≡ [] }
        ensures concerned { result.concerned.items ≡ [] }
    {
        Kqueues {
            places: Vec::new(alloc),
            concerned: Vec::new(alloc),
            alloc,
        }
    }

    pub fn places(&self) -> &[u64]
        ensures { result.now ≡ self.now.places.items }
    {
        self.places.as_slice()
    }

    /// What concerns the kqueue that was made at a place.
    pub fn of(&self, place: u64) -> &Concerned
        requires rising { IsStrictlyIncreasing self.now.places.items }
        requires one_each { length self.now.concerned.items ≡ length self.now.places.items }
        requires born { Contains self.now.places.items place }
        ensures { IsAtPlace place self.now result.now }
    {
        let index = index_of(self.places.as_slice(), place);
        &self.concerned[index]
    }

    /// A process makes a kqueue.
    pub fn bear(&mut self, place: u64, owner: u32) -> Result<(), Memory>
        ensures places { OnOk result (self.new.places.items ≡ self.old.places.items ++ place ∷ []) }
        ensures concerned { OnOk result ((c : Concerned) × IsNew place owner c
            × (self.new.concerned.items ≡ self.old.concerned.items ++ c ∷ [])) }
    {
        let concerned = Concerned::new(self.alloc, place, owner)?;
        self.places.push(place)?;
        Ok(self.concerned.push(concerned)?)
    }

    /// A call of the kqueue that was made at a place: what its changes name concerns it. Where none
    /// was made there, nothing changes. A call without changes costs nothing.
    pub fn call<V: Views>(
        &mut self,
        place: u64,
        changes: &[Change],
        views: &V,
    ) -> Result<(), Memory>
        requires rising { IsStrictlyIncreasing self.old.places.items }
        requires one_each { length self.old.concerned.items ≡ length self.old.places.items }
        ensures places { self.new.places.items ≡ self.old.places.items }
        ensures named { OnOk result (IsNamedAt place (V.sees views.now) changes.now self.old self.new) }
    {
        if changes.is_empty() {
            return Ok(());
        }
        match find(self.places.as_slice(), place) {
            None => Ok(()),
            Some(index) => self.concerned[index].name_all(changes, views),
        }
    }
}

/// Where a number stands among rising ones, if it does.
fn find(places: &[u64], place: u64) -> Option<usize>
    requires { IsStrictlyIncreasing places.now }
    ensures there { IfSome result (IsAlone place places.now) }
    ensures absent { result ≡ None → IsAbsent place places.now }
{
    let index = places.partition_point(|made| place > *made);
    if index < places.len() && places[index] == place {
        return Some(index);
    }
    None
}

/// Where a number stands among rising ones.
fn index_of(places: &[u64], place: u64) -> usize
    requires rising { IsStrictlyIncreasing places.now }
    requires there { Contains places.now place }
    ensures inside { result < length places.now }
    ensures there { slice_index places.now result ≡ place }
    ensures alone { (index : ℕ) → index < length places.now → slice_index places.now index ≡ place
        → index ≡ result }
{
    places.partition_point(|made| *made < place)
}
