//! Alarms in a heap, whose room is reserved before they are added.

ghost use Rattle.std.specs.Prelude.{◌≡◌, ◌<◌, ◌≤◌, ◌+◌, ◌∷◌, [], true, false};
ghost use Rattle.std.specs.Prelude.{MatchOption, IsPermutation, length, All};
ghost use Rattle.kq_alarm.specs.Armed.{entry_of, IsEarliest};

use crate::Alarm;
use std::alloc::Global;
use std::cmp::Reverse;
use std::collections::BinaryHeap;
use std::marker::Model;

/// Alarms in no order, also several of one ident, and the room that was reserved for further ones. No
/// call but `reserve` takes memory; those that add and take out an alarm take logarithmic time, and the
/// others constant time.
#[derive(Drop)]
pub struct Alarms {
    /// The earliest on top.
    heap: BinaryHeap<Reverse<Alarm>>,
}

impl Model for Alarms {
    ghost use Rattle.std.specs.Prelude.{◌-◌};
    ghost use Rattle.std.specs.BinaryHeap.{IsHeap, heap_items, heap_len, heap_capacity};
    ghost use Rattle.kq_alarm.specs.Armed.{Armed};

    ghost Value = { Armed };

    ghost view = { λ a. record { entries = heap_items a.heap; room = heap_capacity a.heap - heap_len a.heap } };

    ghost invariant = { λ a. IsHeap ⟦<Reverse<Alarm> as Ord>⟧.cmp (heap_items a.heap) };
}

impl Alarms {
    /// No alarms, and no room.
    pub fn new(alloc: Global) -> Self
        ensures entries { result.entries ≡ [] }
    {
        Alarms {
            heap: BinaryHeap::new(alloc),
        }
    }

    pub fn len(&self) -> usize
        ensures { result ≡ length self.now.entries }
    {
        self.heap.len()
    }

    /// How many more fit without memory.
    pub fn room(&self) -> usize
        ensures { result ≡ self.now.room }
    {
        self.heap.capacity() - self.heap.len()
    }

    /// Makes the room at least `more`, where there is memory for it, and says whether it is; nothing
    /// else changes.
    pub fn reserve(&mut self, more: usize) -> bool
        ensures entries { self.new.entries ≡ self.old.entries }
        ensures room { self.old.room ≤ self.new.room }
        ensures made { result ≡ true → more ≤ self.new.room }
        ensures missing { result ≡ false → self.old.room < more }
    {
        self.heap.reserve(more).is_ok()
    }

    /// Adds an alarm. It uses one of the room.
    pub fn add(&mut self, alarm: Alarm)
        requires { 0 < self.old.room }
        ensures entries { IsPermutation (entry_of alarm ∷ self.old.entries) self.new.entries }
        ensures room { self.old.room ≤ self.new.room + 1 }
    {
        let _ = self.heap.push(Reverse(alarm));
    }

    /// An alarm before which none is due.
    pub fn earliest(&self) -> Option<Alarm>
        ensures { MatchOption result (self.now.entries ≡ []) (λ alarm. IsEarliest alarm self.now.entries) }
    {
        let Some(Reverse(alarm)) = self.heap.peek() else {
            return None;
        };
        Some(*alarm)
    }

    /// Takes out an alarm before which none is due, where it is due up to this moment. It gives its
    /// room back.
    pub fn take_until(&mut self, moment: u64) -> Option<Alarm>
        ensures entries { MatchOption result
            ((self.new ≡ self.old) × All (λ e. moment < e.0.moment) self.old.entries)
            (λ alarm. (alarm.moment ≤ moment) × All (λ e. alarm.moment ≤ e.0.moment) self.old.entries
            × IsPermutation self.old.entries (entry_of alarm ∷ self.new.entries)) }
        ensures room { MatchOption result (self.new.room ≡ self.old.room)
            (λ _. self.new.room ≡ self.old.room + 1) }
    {
        let Some(alarm) = self.earliest() else {
            return None;
        };
        if moment < alarm.moment {
            return None;
        }
        let Some(Reverse(taken)) = self.heap.pop() else {
            return None;
        };
        Some(taken)
    }

    /// Drops all alarms. They give their room back.
    pub fn clear(&mut self)
        ensures entries { self.new.entries ≡ [] }
        ensures room { self.new.room ≡ self.old.room + length self.old.entries }
    {
        self.heap.clear();
    }
}
