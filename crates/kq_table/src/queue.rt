//! The queue of a table by its keys: asked, put in, taken out, and turned from front to back.

ghost use Rattle.std.specs.Prelude.{◌≡◌, ◌∷◌, [], Some, MatchOption};
ghost use Rattle.std.specs.Prelude.{length, slice_get};
ghost use Rattle.std.specs.Option.{option_copied};
ghost use Rattle.kq_table.specs.Rows.{find_row, key_behind, put_in, waits_in, without_waiting, AreOnce};
ghost use Rattle.kq_table.specs.Rows.{turned, with_first, HaveOwnKeys, HaveRows};

use crate::Keyed;
use crate::find::{key_at, near, placed_at, sought};
use crate::node::Thread;
use crate::nodes::{links_at, seen_at, slot_behind};
use crate::placed::{Place, Placed};
use crate::table::Table;
use crate::waiting::{dequeue, enqueue, requeue_first};

impl<T: Keyed> Table<T> {
    /// How many keys are in the queue.
    pub fn queue_len(&self) -> usize
        ensures { result ≡ length self.now.queue }
    {
        self.waiting
    }

    /// Whether a key is in the queue. Where its row stands at the guessed place, it is not looked up.
    pub fn is_waiting_at(&self, guess: Place, key: T::Key) -> bool
        ensures { result ≡ waits_in T.Key.eq key self.now.queue }
    {
        match near(&self.nodes, &self.index, guess, key) {
            None => false,
            Some(slot) => links_at(&self.nodes, Thread::Queue, slot).is_some(),
        }
    }

    /// The key at the front of the queue.
    pub fn front(&self) -> Option<T::Key>
        ensures front { result ≡ slice_get self.now.queue 0 }

        // Of every table.
        ensures own_keys { HaveOwnKeys T.Key.eq T.key_of self.now.rows }
        ensures once { AreOnce T.Key.eq self.now.queue }
        ensures have_rows { HaveRows T.Key.eq T.key_of self.now.queue self.now.rows }
    {
        key_at(&self.nodes, self.queue.first)
    }

    /// The key behind this one in the queue; None where this is the last, or not there.
    pub fn behind(&self, key: T::Key) -> Option<T::Key>
        ensures { result ≡ key_behind T.Key.eq key self.now.queue }
    {
        let Some(slot) = near(&self.nodes, &self.index, self.guess(key), key) else {
            return None;
        };
        key_at(&self.nodes, slot_behind(&self.nodes, Thread::Queue, slot))
    }

    /// Puts a key that has a row at the back of the queue, where it is not in it. Where its row stands
    /// at the guessed place, it is not looked up.
    #[inline(always)]
    pub fn put_in_at(&mut self, guess: Place, key: T::Key)
        ensures rows { self.new.rows ≡ self.old.rows }
        ensures queue { self.new.queue ≡ put_in T.Key.eq T.key_of key self.old.rows self.old.queue }
        ensures room { self.new.room ≡ self.old.room }
    {
        let Some(slot) = near(&self.nodes, &self.index, guess, key) else {
            return;
        };
        if links_at(&self.nodes, Thread::Queue, slot).is_some() {
            return;
        }
        enqueue(&mut self.nodes, &mut self.queue, &mut self.waiting, slot);
    }

    /// Takes a key out of the queue, where it is in it. Where its row stands at the guessed place, it is
    /// not looked up.
    #[inline(always)]
    pub fn take_out_at(&mut self, guess: Place, key: T::Key)
        ensures rows { self.new.rows ≡ self.old.rows }
        ensures queue { self.new.queue ≡ without_waiting T.Key.eq key self.old.queue }
        ensures room { self.new.room ≡ self.old.room }
    {
        let Some(slot) = near(&self.nodes, &self.index, guess, key) else {
            return;
        };
        dequeue(&mut self.nodes, &mut self.queue, &mut self.waiting, slot);
    }

    /// Takes a key of the queue to its front; where it is not in it, nothing changes. Where its row stands at
    /// the guessed place, it is not looked up.
    pub fn put_first_at(&mut self, guess: Place, key: T::Key)
        ensures rows { self.new.rows ≡ self.old.rows }
        ensures queue { self.new.queue ≡ with_first T.Key.eq key self.old.queue }
        ensures room { self.new.room ≡ self.old.room }
    {
        let Some(slot) = sought(&self.nodes, &self.index, guess, key) else {
            return;
        };
        if links_at(&self.nodes, Thread::Queue, slot).is_some() {
            requeue_first(&mut self.nodes, &mut self.queue, slot);
        }
    }

    /// The row of the key at the front of the queue, without a copy.
    #[inline(always)]
    pub fn look_front(&self) -> Option<&T>
        ensures { MatchOption (option_copied result) (self.now.queue ≡ [])
            (λ row. (slice_get self.now.queue 0 ≡ Some (T.key_of row))
            × (find_row T.Key.eq T.key_of (T.key_of row) self.now.rows ≡ Some row)) }
    {
        seen_at(&self.nodes, self.queue.first)
    }

    /// A guess of where the row of the key at the front of the queue stands.
    fn guess_front(&self) -> Place {
        match self.queue.first {
            Some(slot) => Place { slot },
            None => Place::nowhere(),
        }
    }

    /// Takes the key at the front of the queue to its back.
    pub fn turn(&mut self)
        ensures rows { self.new.rows ≡ self.old.rows }
        ensures queue { self.new.queue ≡ turned self.old.queue }
        ensures room { self.new.room ≡ self.old.room }
    {
        let guess = self.guess_front();
        let Some(key) = self.front() else {
            return;
        };
        self.take_out_at(guess, key);
        self.put_in_at(guess, key);
    }

    /// Takes the key at the front out of the queue, and gives its row.
    pub fn take_front(&mut self) -> Option<Placed<T>>
        ensures rows { self.new.rows ≡ self.old.rows }
        ensures queue { MatchOption result
            ((self.old.queue ≡ []) × (self.new.queue ≡ []))
            (λ p. (self.old.queue ≡ T.key_of p.row ∷ self.new.queue)
            × (find_row T.Key.eq T.key_of (T.key_of p.row) self.old.rows ≡ Some p.row)) }
        ensures room { self.new.room ≡ self.old.room }
    {
        let Some(front) = placed_at(&self.nodes, self.queue.first) else {
            return None;
        };
        self.take_out_at(front.place, front.row.key());
        Some(front)
    }
}
