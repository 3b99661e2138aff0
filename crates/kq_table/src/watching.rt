//! The rows that watch one target, in the order of attachment: the first, the next, or all.

ghost use Rattle.std.specs.Prelude.{◌≡◌, ◌≤◌, ◌+◌, ◌++◌, ◌∷◌, ◌↔◌, [], IsTrue};
ghost use Rattle.std.specs.Prelude.{Some, length, slice_get};
ghost use Rattle.std.specs.Option.{option_copied, option_map};
ghost use Rattle.std.specs.Vec.{vec_len, vec_capacity};
ghost use Rattle.kq_table.specs.Links.{keys_watching, next_watching};
ghost use Rattle.kq_table.specs.Rows.{find_row};

use crate::Keyed;
use crate::find::{first_near, lone_at, near, target_at, watcher_at};
use crate::node::Thread;
use crate::nodes::slot_behind;
use crate::placed::{Place, Watcher};
use crate::table::Table;

impl<T: Keyed> Table<T> {
    /// A guess of where the first row stands that watches a target.
    #[inline(always)]
    fn guess_first(&self, target: T::Target) -> Place {
        self.guesses.of_target(T::number_of_target(target))
    }

    /// The first row that watches a target, in the order of attachment.
    pub fn first_watching(&self, target: T::Target) -> Option<Watcher<T::Key>>
        ensures { option_map (λ w. w.key) result
            ≡ slice_get (keys_watching T.Target.eq T.key_of T.target_of target self.now.rows) 0 }
    {
        let guess = self.guess_first(target);
        let first = first_near(&self.nodes, &self.targets, guess, target);
        watcher_at(&self.nodes, first)
    }

    /// The row that alone watches a target, where it stands at the guessed place. None says nothing.
    #[inline(always)]
    pub fn lone_watching(&self, target: T::Target) -> Option<&T>
        ensures found { (row : T) → option_copied result ≡ Some row
            → find_row T.Key.eq T.key_of (T.key_of row) self.now.rows ≡ Some row }
        ensures alone { (row : T) → option_copied result ≡ Some row
            → keys_watching T.Target.eq T.key_of T.target_of target self.now.rows ≡ T.key_of row ∷ [] }
    {
        lone_at(&self.nodes, self.guess_first(target).slot, target)
    }

    /// The row that watches the same target next behind that of a key; None where that is the last, or
    /// watches nothing, or is not here. Where it stands at the guessed place, it is not looked up.
    #[inline(always)]
    pub fn next_watching_at(&self, guess: Place, key: T::Key) -> Option<Watcher<T::Key>>
        ensures { option_map (λ w. w.key) result
            ≡ next_watching T.Target.eq T.key_of T.target_of T.Key.eq key self.now.rows }
    {
        let Some(slot) = near(&self.nodes, &self.index, guess, key) else {
            return None;
        };
        let Some(_) = target_at(&self.nodes, slot) else {
            return None;
        };
        watcher_at(&self.nodes, slot_behind(&self.nodes, Thread::Watch, slot))
    }

    /// Adds behind `found` the keys that watch a target, in the order in which they were attached.
    /// Where not all of them have room there, it is false. It takes no memory.
    pub fn watching(&self, target: T::Target, found: &mut Vec<T::Key>) -> bool
        ensures room { IsTrue result ↔ (vec_len found.old
            + length (keys_watching T.Target.eq T.key_of T.target_of target self.now.rows) ≤ vec_capacity found.old) }
        ensures found { IsTrue result → found.new.items ≡ found.old.items
            ++ keys_watching T.Target.eq T.key_of T.target_of target self.now.rows }
        ensures capacity { vec_capacity found.new ≡ vec_capacity found.old }
    {
        let guess = self.guess_first(target);
        let mut next = first_near(&self.nodes, &self.targets, guess, target);
        while let Some(slot) = next {
            let Some(node) = self.nodes.get(slot) else {
                return true;
            };
            if found.len() == found.capacity() {
                return false;
            }
            found.push_reserved(node.row.key());
            next = node.watch.after;
        }
        true
    }
}
