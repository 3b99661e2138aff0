//! The keys of the knotes that are to be returned: asked, put in, taken out and turned.

ghost use Rattle.std.specs.Prelude.{◌≡◌, ◌∷◌, [], Some, length, slice_get, MatchOption};
ghost use Rattle.std.specs.Prelude.{if◌then◌else◌};
ghost use Rattle.std.specs.Prelude.{is_some};
ghost use Rattle.std.specs.Option.{option_copied};
ghost use Rattle.kq_model.specs.Knote.{key_eq, find_knote, has_key, queued, without_key};
ghost use Rattle.kq_table.specs.Rows.{key_behind, turned};

use crate::{Knote, Knotes};
use kq_model::Key;
use kq_table::{Place, Placed};

/// The queue: the keys of the knotes that are to be returned, the next one first (Lemon 2001, section 4.2).
/// A key of no knote is never in it. Each call takes constant time; a place is that of the key's knote, or a
/// guess of it.
impl Knotes {
    pub fn queue_len(&self) -> usize
        ensures { result ≡ length self.now.queue }
    {
        self.rows.queue_len()
    }

    /// Puts the key of a knote into the queue, at the back, where it is not there.
    pub fn put_in_at(&mut self, guess: Place, key: Key)
        ensures queue { self.new.queue ≡ (if is_some (find_knote key self.old.knotes)
            then queued key self.old.queue
            else self.old.queue) }
        ensures knotes { self.new.knotes ≡ self.old.knotes }
        ensures room { self.new.room ≡ self.old.room }
    {
        self.rows.put_in_at(guess, key);
    }

    /// Takes a key out of the queue, where it is there.
    pub fn take_out_at(&mut self, guess: Place, key: Key)
        ensures queue { self.new.queue ≡ without_key key self.old.queue }
        ensures knotes { self.new.knotes ≡ self.old.knotes }
        ensures room { self.new.room ≡ self.old.room }
    {
        self.rows.take_out_at(guess, key);
    }

    /// Takes a key of the queue to the front; where it is not there, nothing changes.
    pub fn put_first_at(&mut self, guess: Place, key: Key)
        ensures queue { self.new.queue ≡ (if has_key key self.old.queue
            then key ∷ without_key key self.old.queue
            else self.old.queue) }
        ensures knotes { self.new.knotes ≡ self.old.knotes }
        ensures room { self.new.room ≡ self.old.room }
    {
        self.rows.put_first_at(guess, key);
    }

    /// Whether a key is in the queue.
    pub fn is_waiting_at(&self, guess: Place, key: Key) -> bool
        ensures { result ≡ has_key key self.now.queue }
    {
        self.rows.is_waiting_at(guess, key)
    }

    /// The key at the front.
    pub fn front(&self) -> Option<Key>
        ensures { result ≡ slice_get self.now.queue 0 }
    {
        self.rows.front()
    }

    /// The key behind this one; None where this is the last, or not there.
    pub fn behind(&self, key: Key) -> Option<Key>
        ensures { result ≡ key_behind key_eq key self.now.queue }
    {
        self.rows.behind(key)
    }

    /// The knote whose key is at the front, without a copy.
    #[inline(always)]
    pub fn look_front(&self) -> Option<&Knote>
        ensures { MatchOption (option_copied result) (self.now.queue ≡ [])
            (λ knote. (slice_get self.now.queue 0 ≡ Some knote.key)
            × (find_knote knote.key self.now.knotes ≡ Some knote)) }
    {
        self.rows.look_front()
    }

    /// Takes the key at the front to the back.
    pub fn turn(&mut self)
        ensures queue { self.new.queue ≡ turned self.old.queue }
        ensures knotes { self.new.knotes ≡ self.old.knotes }
        ensures room { self.new.room ≡ self.old.room }
    {
        self.rows.turn();
    }

    /// Takes out the key at the front, and gives its knote with its place.
    pub fn take_front(&mut self) -> Option<Placed<Knote>>
        ensures queue { MatchOption result
            ((self.old.queue ≡ []) × (self.new.queue ≡ []))
            (λ p. (self.old.queue ≡ p.row.key ∷ self.new.queue)
            × (find_knote p.row.key self.old.knotes ≡ Some p.row)) }
        ensures knotes { self.new.knotes ≡ self.old.knotes }
        ensures room { self.new.room ≡ self.old.room }
    {
        self.rows.take_front()
    }
}
