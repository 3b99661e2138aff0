//! A value that changes from place to place, kept by the places where it changed.

ghost use Rattle.std.specs.Prelude.{◌≡◌, ◌++◌, ◌∷◌, [], not, IfOk, OnOk, OnErr};
ghost use Rattle.kq_projection.specs.Timeline.{last_value, mark, marked, value_at, IsUpTo};

use kq_model::Memory;
use std::alloc::Global;
use std::marker::Model;

/// From this place on the value is another one.
#[derive(Debug, Drop, Clone, Copy)]
pub struct Mark<V> {
    pub place: u64,
    pub value: V,
}

/// A value that changes from place to place, by its marks in rising order of their places.
#[derive(Drop)]
pub struct Timeline<V> {
    marks: Vec<Mark<V>>,
}

impl<V> Model for Timeline<V> {
    ghost use Rattle.std.specs.Prelude.{List};
    ghost use Rattle.kq_projection.specs.Timeline.{AreRising};
    ghost use Rattle.kq_projection.specs.declared.history.timeline.Mark.{Mark};

    ghost Value = { List (Mark V) };

    ghost view = { λ t. t.marks.items };

    ghost invariant = { λ t. AreRising t.marks.items };
}

impl<V> Timeline<V> {
    /// No mark.
    pub fn new(alloc: Global) -> Self
        ensures { result ≡ [] }
    {
        Timeline {
            marks: Vec::new(alloc),
        }
    }

    /// One mark alone.
    pub fn one(alloc: Global, place: u64, value: V) -> Result<Self, Memory>
    where
        V: Drop,
        ensures { IfOk result (λ t. t ≡ mark place value ∷ []) }
    {
        let mut marks = Vec::new(alloc);
        marks.push(Mark { place, value })?;
        Ok(Timeline { marks })
    }

    /// One mark more. After Memory nothing has changed.
    fn push(&mut self, place: u64, value: V) -> Result<(), Memory>
    where
        V: Drop,
        requires { IsUpTo place self.old }
        ensures pushed { OnOk result (self.new ≡ self.old ++ mark place value ∷ []) }
        ensures memory { OnErr result (self.new ≡ self.old) }
    {
        Ok(self.marks.push(Mark { place, value })?)
    }

    /// From this place on the value is this one; what it was before is returned. There is no mark
    /// where it was this one already.
    pub fn note(&mut self, place: u64, before: V, value: V) -> Result<V, Memory>
    where
        V: Copy + Drop + PartialEq,
        requires { IsUpTo place self.old }
        ensures had { IfOk result (λ had. had ≡ last_value before self.old) }
        ensures pushed { OnOk result (self.new
            ≡ self.old ++ marked (not (V.eq (last_value before self.old) value)) place value) }
    {
        let had = self.last(before);
        if had == value {
            return Ok(had);
        }
        self.push(place, value)?;
        Ok(had)
    }

    /// The value behind all marks, else the value before them.
    fn last(&self, before: V) -> V
    where
        V: Copy + Drop,
        ensures { result ≡ last_value before self.now }
    {
        match self.marks.last() {
            Some(mark) => mark.value,
            None => before,
        }
    }

    /// The value at a place: that of the last mark at the place or before it, else the value before
    /// all marks.
    pub fn at(&self, place: u64, before: V) -> V
    where
        V: Copy + Drop,
        ensures { result ≡ value_at place before self.now }
    {
        let count = self.marks.partition_point(|mark| mark.place <= place);
        if count == 0 {
            return before;
        }
        self.marks[count - 1].value
    }
}
