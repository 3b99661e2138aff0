//! The table itself: rows attached, found, modified and removed, by key or with a guess.

ghost use Rattle.std.specs.Prelude.{◌≡◌, ◌<◌, ◌≤◌, ◌+◌, ◌++◌, ◌∷◌, ◌↔◌, []};
ghost use Rattle.std.specs.Prelude.{None, IsTrue, OnOk, OnErr, MatchOption};
ghost use Rattle.std.specs.Prelude.{if◌then◌else◌, Some, length, max, is_some, slice_get};
ghost use Rattle.std.specs.Option.{option_copied, option_map};
ghost use Rattle.kq_table.specs.Rows.{find_row, row_after, with_row, without_row, without_waiting, HaveOwnKeys};

use crate::Keyed;
use crate::birth::next_birth;
use crate::enter::{enter, enter_all, make_room, withdraw};
use crate::find::{guessed, near, placed_at, target_at};
use crate::guesses::{Guesses, make_room_for_guesses, note_heir, note_row};
use crate::link::{link_last, unlink};
use crate::node::{Ends, Node, Thread};
use crate::nodes::{row_at, seen_at, set_row, slot_behind};
use crate::placed::{Place, Placed};
use crate::room::fit;
use crate::waiting::dequeue;
use kq_model::Memory;
use slab::Slab;
use std::alloc::Global;
use std::collections::HashMap;
use std::marker::Model;

/// Rows in the order in which they were attached, at most one of each key; a queue of the keys of some
/// of them; and the room that was reserved for further rows. A row stays at its slot until it is taken
/// out. No call but `reserve` takes memory, and each takes constant time, spread over many, but where it
/// says otherwise.
#[derive(Drop)]
pub struct Table<T: Keyed> {
    alloc: Global,
    pub(crate) nodes: Slab<Node<T>>,
    /// The slot of each key that has a row; of others, anything.
    pub(crate) index: HashMap<T::Key, usize>,
    /// The first and the last slot whose row watches a target.
    pub(crate) targets: HashMap<T::Target, Ends>,
    /// The first and the last slot, in the order in which the rows were attached.
    pub(crate) order: Ends,
    /// The first and the last slot whose key is in the queue.
    pub(crate) queue: Ends,
    /// How many keys are in the queue.
    pub(crate) waiting: usize,
    /// How many rows fit.
    pub(crate) limit: usize,
    /// What is born next has this number.
    pub(crate) births: u64,
    /// Where rows were put.
    pub(crate) guesses: Guesses,
}

impl<T: Keyed> Model for Table<T> {
    ghost use Rattle.std.specs.Prelude.{◌-◌, map};
    ghost use Rattle.slab.specs.Slab.{slab_len};
    ghost use Rattle.kq_table.specs.Rows.{Tabled};

    ghost Value = { Tabled T.Key T };

    ghost use Rattle.kq_table.specs.Kept.{IsKept};
    ghost use Rattle.kq_table.specs.Threads.{rows_along};
    ghost use Rattle.kq_table.specs.declared.node.Thread.TheVariants.{Order, Queue};

    ghost view = { λ t. record {
      rows = rows_along Order t.nodes (slab_len t.nodes) t.order.first;
      queue = map T.key_of (rows_along Queue t.nodes t.waiting t.queue.first);
      room = t.limit - slab_len t.nodes;
    } };

    ghost invariant = { λ t. IsKept T.Key.eq T.Target.eq T.key_of T.target_of
        t.nodes t.index t.targets t.order t.queue t.waiting t.limit t.births };
}

impl<T: Keyed> Table<T> {
    /// No rows, an empty queue, and no room.
    pub fn new(alloc: Global) -> Self
        ensures rows { result.rows ≡ [] }
        ensures queue { result.queue ≡ [] }
        ensures room { result.room ≡ 0 }
    {
        Table {
            alloc,
            nodes: Slab::new(alloc),
            index: HashMap::new(alloc),
            targets: HashMap::new(alloc),
            order: Ends::none(),
            queue: Ends::none(),
            waiting: 0,
            limit: 0,
            births: 0,
            guesses: Guesses::new(alloc),
        }
    }

    pub fn allocator(&self) -> Global {
        self.alloc
    }

    pub fn len(&self) -> usize
        ensures { result ≡ length self.now.rows }
    {
        self.nodes.len()
    }

    pub fn is_empty(&self) -> bool
        ensures { IsTrue result ↔ (self.now.rows ≡ []) }
    {
        self.len() == 0
    }

    /// How many more rows fit without memory.
    pub fn room(&self) -> usize
        ensures { result ≡ self.now.room }
    {
        self.limit - self.nodes.len()
    }

    /// Makes the room at least `more`. It is the one call that takes memory; after `Memory` nothing
    /// has changed.
    pub fn reserve(&mut self, more: usize) -> Result<(), Memory>
        ensures rows { self.new.rows ≡ self.old.rows }
        ensures queue { self.new.queue ≡ self.old.queue }
        ensures room { OnOk result (self.new.room ≡ max self.old.room more) }
        ensures err { OnErr result (self.new.room ≡ self.old.room) }

        // Memory comes only where the room was missing.
        ensures missing { OnErr result (self.old.room < more) }
    {
        if more <= self.room() {
            return Ok(());
        }
        let Some(limit) = self.nodes.len().checked_add(more) else {
            return Err(Memory);
        };
        fit(
            &mut self.nodes,
            &mut self.index,
            &mut self.targets,
            more,
            limit,
        )?;
        self.limit = limit;
        make_room_for_guesses(&self.nodes, self.order.first, limit, &mut self.guesses);
        Ok(())
    }

    /// A guess of where the row of a key stands.
    pub fn guess(&self, key: T::Key) -> Place {
        self.guesses.of_key(T::number_of_key(key))
    }

    /// The row of a key.
    pub fn find(&self, key: T::Key) -> Option<T>
        ensures { result ≡ find_row T.Key.eq T.key_of key self.now.rows }
    {
        self.find_at(self.guess(key), key)
    }

    /// The row of a key with its place, where the calls that take a guess find it without a search.
    pub fn locate(&self, key: T::Key) -> Option<Placed<T>>
        ensures { option_map (λ p. p.row) result ≡ find_row T.Key.eq T.key_of key self.now.rows }
    {
        self.locate_at(self.guess(key), key)
    }

    /// The row of a key, which is looked up only where it does not stand at the guessed place.
    pub fn find_at(&self, guess: Place, key: T::Key) -> Option<T>
        ensures { result ≡ find_row T.Key.eq T.key_of key self.now.rows }
    {
        row_at(&self.nodes, near(&self.nodes, &self.index, guess, key))
    }

    /// The row of a key with its place; it is looked up only where it does not stand at the guessed place.
    pub fn locate_at(&self, guess: Place, key: T::Key) -> Option<Placed<T>>
        ensures { option_map (λ p. p.row) result ≡ find_row T.Key.eq T.key_of key self.now.rows }
    {
        placed_at(&self.nodes, near(&self.nodes, &self.index, guess, key))
    }

    /// The row of a key, without a copy; it is looked up only where it does not stand at the guessed place.
    pub fn look_at(&self, guess: Place, key: T::Key) -> Option<&T>
        ensures { option_copied result ≡ find_row T.Key.eq T.key_of key self.now.rows }
    {
        seen_at(&self.nodes, near(&self.nodes, &self.index, guess, key))
    }

    /// The row of a key, where it stands at the guessed place.
    #[inline(always)]
    pub fn look_there(&self, guess: Place, key: T::Key) -> Option<&T>
        ensures { (row : T) → option_copied result ≡ Some row
            → find_row T.Key.eq T.key_of key self.now.rows ≡ Some row }
    {
        let Some(slot) = guessed(&self.nodes, guess, key) else {
            return None;
        };
        seen_at(&self.nodes, Some(slot))
    }

    /// Whether there is a row of a key.
    pub fn contains(&self, key: T::Key) -> bool
        ensures { result ≡ is_some (find_row T.Key.eq T.key_of key self.now.rows) }
    {
        self.find(key).is_some()
    }

    /// The first row.
    pub fn first(&self) -> Option<T>
        ensures first { result ≡ slice_get self.now.rows 0 }

        // Of every table.
        ensures own_keys { HaveOwnKeys T.Key.eq T.key_of self.now.rows }
    {
        row_at(&self.nodes, self.order.first)
    }

    /// The row behind that of a key; None where that is the last, or not here.
    pub fn next_after(&self, key: T::Key) -> Option<T>
        ensures { result ≡ row_after T.Key.eq T.key_of key self.now.rows }
    {
        self.next_after_at(self.guess(key), key)
    }

    /// The row behind that of a key, which is looked up only where it does not stand at the guessed place; None
    /// where that is the last, or not here.
    pub fn next_after_at(&self, guess: Place, key: T::Key) -> Option<T>
        ensures { result ≡ row_after T.Key.eq T.key_of key self.now.rows }
    {
        let Some(slot) = near(&self.nodes, &self.index, guess, key) else {
            return None;
        };
        row_at(&self.nodes, slot_behind(&self.nodes, Thread::Order, slot))
    }

    /// Adds a row of a new key behind the others, out of the queue, and says where it stands. It uses
    /// one of the room.
    pub fn attach(&mut self, row: T) -> Place
        requires room { 0 < self.old.room }
        requires absent { find_row T.Key.eq T.key_of (T.key_of row) self.old.rows ≡ None }
        ensures rows { self.new.rows ≡ self.old.rows ++ row ∷ [] }
        ensures queue { self.new.queue ≡ self.old.queue }
        ensures room { self.new.room + 1 ≡ self.old.room }
    {
        let first = self.order.first;
        make_room(&mut self.nodes, &mut self.index, &mut self.targets, first);
        let born = next_birth(&mut self.nodes, first, &mut self.births);
        let slot = self.nodes.insert_reserved(Node::new(row, born));
        link_last(&mut self.nodes, Thread::Order, &mut self.order, slot);
        enter(&mut self.nodes, &mut self.index, &mut self.targets, slot);
        note_row(&self.nodes, slot, &mut self.guesses);
        Place { slot }
    }

    /// Puts a row in the place of the one of its key; where there is none, nothing changes. Where it
    /// watches another target than that one, all rows are linked anew, in time in proportion to their
    /// number.
    pub fn modify(&mut self, row: T)
        ensures rows { self.new.rows ≡ with_row T.Key.eq T.key_of row self.old.rows }
        ensures queue { self.new.queue ≡ self.old.queue }
        ensures room { self.new.room ≡ self.old.room }
    {
        self.modify_at(self.guess(row.key()), row);
    }

    /// Puts a row in the place of the one of its key, as `modify` does; that one is looked up only where it does
    /// not stand at the guessed place.
    pub fn modify_at(&mut self, guess: Place, row: T)
        ensures rows { self.new.rows ≡ with_row T.Key.eq T.key_of row self.old.rows }
        ensures queue { self.new.queue ≡ self.old.queue }
        ensures room { self.new.room ≡ self.old.room }
    {
        let Some(slot) = near(&self.nodes, &self.index, guess, row.key()) else {
            return;
        };
        let target = target_at(&self.nodes, slot);
        set_row(&mut self.nodes, slot, row);
        // Another row may have stood there for it.
        self.guesses.note_key(T::number_of_key(row.key()), slot);
        if target == row.target() {
            return;
        }
        let first = self.order.first;
        enter_all(&mut self.nodes, &mut self.index, &mut self.targets, first);
    }

    /// Puts a row in the place of the one of its key, where that stands at the guessed place and watches the same
    /// target, and says whether it did; else nothing changes.
    #[inline(always)]
    pub fn modify_there(&mut self, guess: Place, row: &T) -> bool
        ensures rows { self.new.rows
            ≡ (if result then with_row T.Key.eq T.key_of row.now self.old.rows else self.old.rows) }
        ensures queue { self.new.queue ≡ self.old.queue }
        ensures room { self.new.room ≡ self.old.room }
    {
        let Some(there) = guessed(&self.nodes, guess, row.key()) else {
            return false;
        };
        let target = target_at(&self.nodes, there);
        if target == row.target() {
            set_row(&mut self.nodes, there, *row);
            return true;
        }
        false
    }

    /// Takes out the row of a key, where there is one, and out of the queue. It gives its room back.
    pub fn remove(&mut self, key: T::Key) -> Option<T>
        ensures removed { result ≡ find_row T.Key.eq T.key_of key self.old.rows }
        ensures rows { self.new.rows ≡ without_row T.Key.eq T.key_of key self.old.rows }
        ensures queue { self.new.queue ≡ without_waiting T.Key.eq key self.old.queue }
        ensures room { MatchOption result (self.new.room ≡ self.old.room)
            (λ _. self.new.room ≡ self.old.room + 1) }
    {
        self.remove_at(self.guess(key), key)
    }

    /// Takes out the row of a key, as `remove` does; it is looked up only where it does not stand at the guessed
    /// place.
    pub fn remove_at(&mut self, guess: Place, key: T::Key) -> Option<T>
        ensures removed { result ≡ find_row T.Key.eq T.key_of key self.old.rows }
        ensures rows { self.new.rows ≡ without_row T.Key.eq T.key_of key self.old.rows }
        ensures queue { self.new.queue ≡ without_waiting T.Key.eq key self.old.queue }
        ensures room { MatchOption result (self.new.room ≡ self.old.room)
            (λ _. self.new.room ≡ self.old.room + 1) }
    {
        let Some(slot) = near(&self.nodes, &self.index, guess, key) else {
            return None;
        };
        note_heir(&self.nodes, slot, &mut self.guesses);
        dequeue(&mut self.nodes, &mut self.queue, &mut self.waiting, slot);
        withdraw(&mut self.nodes, &mut self.targets, slot);
        unlink(&mut self.nodes, Thread::Order, &mut self.order, slot);
        Some(self.nodes.remove(slot).row)
    }
}
