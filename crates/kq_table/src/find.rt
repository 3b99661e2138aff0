//! Where a row stands: looked for at a guessed slot first, and else by key or by target.

ghost use Rattle.std.specs.Prelude.{◌≡◌, ℕ, Some, true, MatchOption, option_map};
ghost use Rattle.std.specs.Option.{option_and_then, option_copied};
ghost use Rattle.std.specs.HashMap.{get as found};
ghost use Rattle.kq_table.specs.Kept.{ends_of, is_key_of, AreLed, HasNoRow, IsIndexed, IsLeading, IsLone, StandsAt};
ghost use Rattle.kq_table.specs.Threads.{links_in, rows_in};
ghost use Rattle.kq_table.specs.declared.node.Thread.TheVariants.{Watch};

use crate::Keyed;
use crate::enter::ends_at;
use crate::node::{Ends, Node};
use crate::placed::{Place, Placed, Watcher};
use slab::Slab;
use std::collections::HashMap;

/// Whether the row of a key stands at a slot.
#[inline(always)]
fn stands_at<T: Keyed>(nodes: &Slab<Node<T>>, slot: usize, key: T::Key) -> bool
    ensures { result ≡ is_key_of T.Key.eq T.key_of key (rows_in nodes.now slot) }
{
    match nodes.get(slot) {
        None => false,
        Some(node) => key == node.row.key(),
    }
}

/// The slot where the row of a key stands, by the index.
fn indexed<T: Keyed>(
    nodes: &Slab<Node<T>>,
    index: &HashMap<T::Key, usize>,
    key: T::Key,
) -> Option<usize>
    requires { IsIndexed T.Key.eq T.key_of (rows_in nodes.now) index.now }
    ensures { MatchOption result (HasNoRow T.Key.eq T.key_of (rows_in nodes.now) key)
        (StandsAt T.Key.eq T.key_of (rows_in nodes.now) key) }
{
    let Some(slot) = index.get(&key) else {
        return None;
    };
    if stands_at(nodes, *slot, key) {
        Some(*slot)
    } else {
        None
    }
}

/// The guessed slot, where the row of a key stands there.
#[inline(always)]
pub(crate) fn guessed<T: Keyed>(nodes: &Slab<Node<T>>, guess: Place, key: T::Key) -> Option<usize>
    ensures { MatchOption result (Unit {0}) (StandsAt T.Key.eq T.key_of (rows_in nodes.now) key) }
{
    if stands_at(nodes, guess.slot, key) {
        Some(guess.slot)
    } else {
        None
    }
}

/// The slot where the row of a key stands. Where it is the guessed one, the index is not asked.
#[inline(always)]
pub(crate) fn near<T: Keyed>(
    nodes: &Slab<Node<T>>,
    index: &HashMap<T::Key, usize>,
    guess: Place,
    key: T::Key,
) -> Option<usize>
    requires { IsIndexed T.Key.eq T.key_of (rows_in nodes.now) index.now }
    ensures { MatchOption result (HasNoRow T.Key.eq T.key_of (rows_in nodes.now) key)
        (StandsAt T.Key.eq T.key_of (rows_in nodes.now) key) }
{
    let Some(slot) = guessed(nodes, guess, key) else {
        return indexed(nodes, index, key);
    };
    Some(slot)
}

/// The slot where the row of a key stands, found by a call: with one more caller to take it in, `near` would be a
/// call in all of them.
pub(crate) fn sought<T: Keyed>(
    nodes: &Slab<Node<T>>,
    index: &HashMap<T::Key, usize>,
    guess: Place,
    key: T::Key,
) -> Option<usize>
    requires { IsIndexed T.Key.eq T.key_of (rows_in nodes.now) index.now }
    ensures { MatchOption result (HasNoRow T.Key.eq T.key_of (rows_in nodes.now) key)
        (StandsAt T.Key.eq T.key_of (rows_in nodes.now) key) }
{
    if !stands_at(nodes, guess.slot, key) {
        return indexed(nodes, index, key);
    }
    Some(guess.slot)
}

/// Whether the row at a slot is the first that watches a target.
#[inline(always)]
fn leads<T: Keyed>(nodes: &Slab<Node<T>>, slot: usize, target: T::Target) -> bool
    ensures { result ≡ true
        → IsLeading T.Target.eq T.target_of (rows_in nodes.now) (links_in Watch nodes.now) target slot }
{
    let Some(node) = nodes.get(slot) else {
        return false;
    };
    let None = node.watch.before else {
        return false;
    };
    let Some(watched) = node.row.target() else {
        return false;
    };
    target == watched
}

/// The row at a slot, where it watches a target and is linked with no other that does.
#[inline(always)]
pub(crate) fn lone_at<T: Keyed>(nodes: &Slab<Node<T>>, slot: usize, target: T::Target) -> Option<&T>
    ensures { (row : T) → option_copied result ≡ Some row
        → IsLone T.Target.eq T.target_of (rows_in nodes.now) (links_in Watch nodes.now) target slot row }
{
    let Some(node) = nodes.get(slot) else {
        return None;
    };
    let (None, None) = (node.watch.before, node.watch.after) else {
        return None;
    };
    let Some(watched) = node.row.target() else {
        return None;
    };
    if target == watched {
        Some(&node.row)
    } else {
        None
    }
}

/// The first slot whose row watches a target. Where it is the guessed one, the map is not asked.
#[inline(always)]
pub(crate) fn first_near<T: Keyed>(
    nodes: &Slab<Node<T>>,
    targets: &HashMap<T::Target, Ends>,
    guess: Place,
    target: T::Target,
) -> Option<usize>
    requires { AreLed T.Target.eq T.target_of (rows_in nodes.now) (links_in Watch nodes.now) targets.now }
    ensures { result ≡ (ends_of (found T.Target.eq targets.now target)).first }
{
    if leads(nodes, guess.slot, target) {
        return Some(guess.slot);
    }
    ends_at(targets, target).first
}

/// The row at a slot with its place, where a slot is named.
pub(crate) fn placed_at<T: Copy>(nodes: &Slab<Node<T>>, slot: Option<usize>) -> Option<Placed<T>>
    ensures { option_map (λ p. p.row) result ≡ option_and_then (rows_in nodes.now) slot }
{
    let Some(slot) = slot else {
        return None;
    };
    let Some(node) = nodes.get(slot) else {
        return None;
    };
    Some(Placed {
        row: node.row,
        place: Place { slot },
    })
}

/// The key of the row at a slot, where a slot is named.
pub(crate) fn key_at<T: Keyed>(nodes: &Slab<Node<T>>, slot: Option<usize>) -> Option<T::Key>
    ensures { result ≡ option_map T.key_of (option_and_then (rows_in nodes.now) slot) }
{
    let Some(slot) = slot else {
        return None;
    };
    let Some(node) = nodes.get(slot) else {
        return None;
    };
    Some(node.row.key())
}

/// The key of the row at a slot, where a slot is named, with the place of the row.
#[inline(always)]
pub(crate) fn watcher_at<T: Keyed>(
    nodes: &Slab<Node<T>>,
    slot: Option<usize>,
) -> Option<Watcher<T::Key>>
    ensures { option_map (λ w. w.key) result ≡ option_map T.key_of (option_and_then (rows_in nodes.now) slot) }
{
    let Some(slot) = slot else {
        return None;
    };
    let Some(node) = nodes.get(slot) else {
        return None;
    };
    Some(Watcher {
        key: node.row.key(),
        place: Place { slot },
    })
}

/// What the row at a slot watches.
pub(crate) fn target_at<T: Keyed>(nodes: &Slab<Node<T>>, slot: usize) -> Option<T::Target>
    ensures { result ≡ option_and_then T.target_of (rows_in nodes.now slot) }
{
    let Some(node) = nodes.get(slot) else {
        return None;
    };
    node.row.target()
}
