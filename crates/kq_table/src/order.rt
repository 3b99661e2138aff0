//! Keys sorted by when their rows were attached, in room that is there.

ghost use Rattle.std.specs.Prelude.{◌≡◌, ◌≤◌, length, map, filter};
ghost use Rattle.std.specs.Vec.{vec_len, vec_capacity};
ghost use Rattle.kq_table.specs.Births.{keys_born, AreBirthsOf, AreRising};
ghost use Rattle.kq_table.specs.Kept.{IsIndexed};
ghost use Rattle.kq_table.specs.Rows.{is_among};
ghost use Rattle.kq_table.specs.Threads.{births_in, rows_in};

use crate::Keyed;
use crate::find::{key_at, sought};
use crate::guesses::Guesses;
use crate::node::Node;
use crate::numbered::Birth;
use crate::table::Table;
use slab::Slab;
use std::collections::HashMap;

/// Puts the births of the rows of these keys into `places`, in rising order, each once.
fn births_of<T: Keyed>(
    nodes: &Slab<Node<T>>,
    index: &HashMap<T::Key, usize>,
    guesses: &Guesses,
    keys: &[T::Key],
    places: &mut Vec<Birth>,
)
    requires indexed { IsIndexed T.Key.eq T.key_of (rows_in nodes.now) index.now }
    requires room { length keys.now ≤ vec_capacity places.old }
    ensures births { AreBirthsOf T.Key.eq T.key_of (rows_in nodes.now) (births_in nodes.now) keys.now places.new.items }
    ensures rising { AreRising 0 places.new.items }
    ensures len { vec_len places.new ≤ length keys.now }
    ensures capacity { vec_capacity places.new ≡ vec_capacity places.old }
{
    places.clear();
    for key in keys {
        let guess = guesses.of_key(T::number_of_key(*key));
        if let Some(slot) = sought(nodes, index, guess, *key) {
            places.push_reserved(Birth {
                born: nodes[slot].born,
                slot,
            });
        }
    }
    places.sort_unstable_by_key(|birth| birth.born);
    places.dedup_by_key(|birth| birth.born);
}

/// Puts in the place of these keys those of the rows that stand in these places.
fn take_keys<T: Keyed>(nodes: &Slab<Node<T>>, places: &[Birth], keys: &mut Vec<T::Key>)
    requires { length places.now ≤ vec_len keys.old }
    ensures keys { keys.new.items ≡ keys_born T.key_of (rows_in nodes.now) places.now }
    ensures capacity { vec_capacity keys.new ≡ vec_capacity keys.old }
{
    keys.clear();
    for place in places {
        if let Some(key) = key_at(nodes, Some(place.slot)) {
            keys.push_reserved(key);
        }
    }
}

impl<T: Keyed> Table<T> {
    /// Puts keys into the order of their rows: the key of each row that is of one of them, once. What
    /// stood in `places` is gone: there is then where each of these rows stands. It takes no memory, and
    /// time as a sort of the keys does.
    pub fn put_in_order(&self, keys: &mut Vec<T::Key>, places: &mut Vec<Birth>)
        requires { vec_len keys.old ≤ vec_capacity places.old }
        ensures keys { keys.new.items
            ≡ map T.key_of (filter (is_among T.Key.eq T.key_of keys.old.items) self.now.rows) }
        ensures room { vec_capacity keys.new ≡ vec_capacity keys.old }
        ensures places { vec_capacity places.new ≡ vec_capacity places.old }
    {
        births_of(&self.nodes, &self.index, &self.guesses, keys, places);
        take_keys(&self.nodes, places, keys);
    }
}
