//! What the value of each key was at each place.

ghost use Rattle.std.specs.Prelude.{◌≡◌, ◌++◌, ◌&&◌, [], not, IfOk, OnOk};
ghost use Rattle.kq_projection.specs.Timeline.{last_value, marked, value_at};
ghost use Rattle.kq_projection.specs.Timelines.{marks_at, AreUpTo};

use crate::history::timeline::Timeline;
use kq_model::Memory;
use std::alloc::Global;
use std::collections::HashMap;
use std::hash::Hash;

/// A timeline for each key. Contracts see the marks of each, which are none for a key that was
/// never marked.
#[derive(Drop)]
pub struct Timelines<K: Copy + Eq + Hash, V> {
    pub(crate) table: HashMap<K, Timeline<V>>,
    alloc: Global,
}

impl<K: Copy + Eq + Hash, V: Copy + Drop> Timelines<K, V> {
    /// No mark for any key.
    pub fn new(alloc: Global) -> Self
        ensures { (key : K) → marks_at K.eq result.table key ≡ [] }
    {
        Timelines {
            table: HashMap::new(alloc),
            alloc,
        }
    }

    /// The value of a key at a place.
    pub fn at(&self, key: K, place: u64, before: V) -> V
        ensures { result ≡ value_at place before (marks_at K.eq self.now.table key) }
    {
        match self.table.get(&key) {
            Some(timeline) => timeline.at(place, before),
            None => before,
        }
    }

    /// From this place on a key has this value; what it had is returned, which is `before` where it
    /// was never marked. There is no mark where it has the value already. After Memory nothing is
    /// known.
    pub fn note(&mut self, key: K, place: u64, before: V, value: V) -> Result<V, Memory>
    where
        V: PartialEq,
        requires { AreUpTo K.eq place self.old.table }
        ensures had { IfOk result (λ had. had ≡ last_value before (marks_at K.eq self.old.table key)) }
        ensures noted { OnOk result ((other : K) → marks_at K.eq self.new.table other
            ≡ marks_at K.eq self.old.table other ++ marked (K.eq key other
            && not (V.eq (last_value before (marks_at K.eq self.old.table key)) value)) place value) }
    {
        match self.table.get_mut(&key) {
            Some(timeline) => timeline.note(place, before, value),
            None => {
                if before == value {
                    return Ok(before);
                }
                let timeline = Timeline::one(self.alloc, place, value)?;
                self.table.insert(key, timeline)?;
                Ok(before)
            }
        }
    }
}
