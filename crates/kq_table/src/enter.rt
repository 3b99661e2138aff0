//! How rows are put where their keys and targets find them, and taken from among their targets'.

ghost use Rattle.std.specs.Prelude.{◌≡◌, ◌<◌, ◌≤◌, ◌+◌, ◌++◌, ◌∷◌, [], ℕ, List};
ghost use Rattle.std.specs.Prelude.{IsSome, Some, true, false};
ghost use Rattle.std.specs.Prelude.{if◌then◌else◌, option_map};
ghost use Rattle.std.specs.Prelude.{length};
ghost use Rattle.std.specs.HashMap.{get as found, spare};
ghost use Rattle.slab.specs.Slab.{get, slab_len};
ghost use Rattle.kq_table.specs.Kept.{ends_of, names_room, AreApart, AreWatched, IsEntered};
ghost use Rattle.kq_table.specs.Threads.{ends_past, ends_with, head_or, is_in, links_in, passed_over};
ghost use Rattle.kq_table.specs.Threads.{put_last, rows_in, without_slot, AreDistinct, AreLinked, SameBut};
ghost use Rattle.kq_table.specs.declared.node.Thread.TheVariants.{Order, Watch};

use crate::Keyed;
use crate::find::{key_at, target_at};
use crate::link::{link_last, unlink};
use crate::node::{Ends, Node, Thread};
use crate::nodes::slot_behind;
use slab::Slab;
use std::collections::HashMap;
use std::hash::Hash;

/// Notes what is of a name, in the place of what was noted before.
fn note<K: Copy + Eq + Hash, V: Copy>(names: &mut HashMap<K, V>, name: K, value: V)
    requires { 0 < spare names.old }
    ensures noted { (other : K) → found K.eq names.new other
        ≡ (if K.eq name other then Some value else found K.eq names.old other) }
    ensures room { names_room names.old ≤ names_room names.new }
    ensures spare { spare names.old ≤ spare names.new + 1 }
{
    match names.get_mut(&name) {
        Some(at) => *at = value,
        None => match names.insert(name, value) {
            Ok(_) => {}
            Err(_) => unreachable!(),
        },
    }
}

/// The first and the last slot whose row watches a target.
pub(crate) fn ends_at<G: Copy + Eq + Hash>(targets: &HashMap<G, Ends>, target: G) -> Ends
    ensures { result ≡ ends_of (found G.eq targets.now target) }
{
    match targets.get(&target) {
        None => Ends::none(),
        Some(ends) => *ends,
    }
}

/// Links a slot behind those whose rows watch a target.
fn link_to<T: Copy, G: Copy + Eq + Hash>(
    nodes: &mut Slab<Node<T>>,
    targets: &mut HashMap<G, Ends>,
    target: G,
    slot: usize,
)
    requires here { IsSome (get nodes.old slot) }
    requires fits { 0 < spare targets.old }
    ensures noted { (other : G) → found G.eq targets.new other ≡ (if G.eq target other
        then Some (ends_with slot (ends_of (found G.eq targets.old target)))
        else found G.eq targets.old other) }
    ensures links { links_in Watch nodes.new
        ≡ put_last (ends_of (found G.eq targets.old target)).last slot (links_in Watch nodes.old) }
    ensures same { SameBut Watch nodes.old nodes.new }
    ensures room { names_room targets.old ≤ names_room targets.new }
    ensures spare { spare targets.old ≤ spare targets.new + 1 }
{
    match targets.get_mut(&target) {
        Some(ends) => link_last(nodes, Thread::Watch, ends, slot),
        None => {
            let mut ends = Ends::none();
            link_last(nodes, Thread::Watch, &mut ends, slot);
            note(targets, target, ends);
        }
    }
}

/// Links the row at a slot behind the others that watch what it watches.
fn watch<T: Keyed>(nodes: &mut Slab<Node<T>>, targets: &mut HashMap<T::Target, Ends>, slot: usize)
    requires { 0 < spare targets.old }
    ensures watched { (slots : List ℕ) (row : T) → rows_in nodes.old slot ≡ Some row
        → is_in slot slots ≡ false
        → AreWatched T.Target.eq T.target_of (rows_in nodes.old) (links_in Watch nodes.old) targets.old slots
        → AreWatched T.Target.eq T.target_of (rows_in nodes.old) (links_in Watch nodes.new) targets.new
        (slots ++ slot ∷ []) }
    ensures same { SameBut Watch nodes.old nodes.new }
    ensures room { names_room targets.old ≤ names_room targets.new }
    ensures spare { spare targets.old ≤ spare targets.new + 1 }
{
    let Some(target) = target_at(nodes, slot) else {
        return;
    };
    link_to(nodes, targets, target, slot);
}

/// Notes where the row at a slot stands, and links it behind the others that watch what it watches.
pub(crate) fn enter<T: Keyed>(
    nodes: &mut Slab<Node<T>>,
    index: &mut HashMap<T::Key, usize>,
    targets: &mut HashMap<T::Target, Ends>,
    slot: usize,
)
    requires keys { 0 < spare index.old }
    requires targets { 0 < spare targets.old }
    ensures entered { (slots : List ℕ) (row : T) → rows_in nodes.old slot ≡ Some row
        → is_in slot slots ≡ false
        → ((other : ℕ) (r : T) → is_in other slots ≡ true → rows_in nodes.old other ≡ Some r
        → T.Key.eq (T.key_of row) (T.key_of r) ≡ false)
        → IsEntered T.Key.eq T.Target.eq T.key_of T.target_of (rows_in nodes.old) (links_in Watch nodes.old)
        index.old targets.old slots
        → IsEntered T.Key.eq T.Target.eq T.key_of T.target_of (rows_in nodes.old) (links_in Watch nodes.new)
        index.new targets.new (slots ++ slot ∷ []) }
    ensures same { SameBut Watch nodes.old nodes.new }
    ensures keys_room { names_room index.old ≤ names_room index.new }
    ensures keys_spare { spare index.old ≤ spare index.new + 1 }
    ensures targets_room { names_room targets.old ≤ names_room targets.new }
    ensures targets_spare { spare targets.old ≤ spare targets.new + 1 }
{
    let Some(key) = key_at(nodes, Some(slot)) else {
        return;
    };
    note(index, key, slot);
    watch(nodes, targets, slot);
}

/// Enters the rows anew, in the order of attachment, so that keys and targets that have gone take no more room.
pub(crate) fn enter_all<T: Keyed>(
    nodes: &mut Slab<Node<T>>,
    index: &mut HashMap<T::Key, usize>,
    targets: &mut HashMap<T::Target, Ends>,
    first: Option<usize>,
)
    requires keys { slab_len nodes.old ≤ names_room index.old }
    requires targets { slab_len nodes.old ≤ names_room targets.old }
    ensures entered { (slots : List ℕ) → AreLinked (links_in Order nodes.old) None slots None
        → AreDistinct slots → first ≡ head_or None slots → slab_len nodes.old ≡ length slots
        → AreApart T.Key.eq T.key_of (rows_in nodes.old) slots
        → IsEntered T.Key.eq T.Target.eq T.key_of T.target_of (rows_in nodes.old) (links_in Watch nodes.new)
        index.new targets.new slots }
    ensures same { SameBut Watch nodes.old nodes.new }
    ensures keys_room { names_room index.old ≤ names_room index.new }
    ensures keys_spare { names_room index.old ≤ spare index.new + slab_len nodes.old }
    ensures targets_room { names_room targets.old ≤ names_room targets.new }
    ensures targets_spare { names_room targets.old ≤ spare targets.new + slab_len nodes.old }
{
    index.clear();
    targets.clear();
    let mut next = first;
    for _step in 0..nodes.len() {
        let Some(slot) = next else {
            return;
        };
        enter(nodes, index, targets, slot);
        next = slot_behind(nodes, Thread::Order, slot);
    }
}

/// Makes room for the key and the target of one more row: where there is none, those that have gone are dropped.
pub(crate) fn make_room<T: Keyed>(
    nodes: &mut Slab<Node<T>>,
    index: &mut HashMap<T::Key, usize>,
    targets: &mut HashMap<T::Target, Ends>,
    first: Option<usize>,
)
    requires keys { slab_len nodes.old < names_room index.old }
    requires targets { slab_len nodes.old < names_room targets.old }
    ensures entered { (slots : List ℕ) → AreLinked (links_in Order nodes.old) None slots None
        → AreDistinct slots → first ≡ head_or None slots → slab_len nodes.old ≡ length slots
        → IsEntered T.Key.eq T.Target.eq T.key_of T.target_of (rows_in nodes.old) (links_in Watch nodes.old)
        index.old targets.old slots
        → IsEntered T.Key.eq T.Target.eq T.key_of T.target_of (rows_in nodes.old) (links_in Watch nodes.new)
        index.new targets.new slots }
    ensures same { SameBut Watch nodes.old nodes.new }
    ensures keys_room { names_room index.old ≤ names_room index.new }
    ensures keys { 0 < spare index.new }
    ensures targets_room { names_room targets.old ≤ names_room targets.new }
    ensures targets { 0 < spare targets.new }
{
    if index.len() < index.capacity() && targets.len() < targets.capacity() {
        return;
    }
    enter_all(nodes, index, targets, first);
}

/// Makes the neighbours of a slot, among those whose rows watch a target, neighbours of each other.
fn unlink_from<T: Copy, G: Copy + Eq + Hash>(
    nodes: &mut Slab<Node<T>>,
    targets: &mut HashMap<G, Ends>,
    target: G,
    slot: usize,
)
    ensures noted { (other : G) → found G.eq targets.new other ≡ (if G.eq target other
        then option_map (ends_past (links_in Watch nodes.old slot)) (found G.eq targets.old other)
        else found G.eq targets.old other) }
    ensures links { links_in Watch nodes.new
        ≡ passed_over (links_in Watch nodes.old slot) (links_in Watch nodes.old) }
    ensures same { SameBut Watch nodes.old nodes.new }
    ensures room { names_room targets.old ≤ names_room targets.new }
{
    match targets.get_mut(&target) {
        Some(ends) => unlink(nodes, Thread::Watch, ends, slot),
        None => unlink(nodes, Thread::Watch, &mut Ends::none(), slot),
    }
}

/// Takes the row at a slot from among those that watch what it watches.
pub(crate) fn withdraw<T: Keyed>(
    nodes: &mut Slab<Node<T>>,
    targets: &mut HashMap<T::Target, Ends>,
    slot: usize,
)
    ensures watched { (slots : List ℕ) (row : T) → rows_in nodes.old slot ≡ Some row → is_in slot slots ≡ true
        → AreDistinct slots
        → AreWatched T.Target.eq T.target_of (rows_in nodes.old) (links_in Watch nodes.old) targets.old slots
        → AreWatched T.Target.eq T.target_of (rows_in nodes.old) (links_in Watch nodes.new) targets.new
        (without_slot slot slots) }
    ensures same { SameBut Watch nodes.old nodes.new }
    ensures room { names_room targets.old ≤ names_room targets.new }
{
    let Some(target) = target_at(nodes, slot) else {
        return;
    };
    unlink_from(nodes, targets, target, slot);
}
