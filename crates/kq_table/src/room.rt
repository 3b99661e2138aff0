//! Memory for further rows, taken before they come: for slots, for keys and for targets.

ghost use Rattle.std.specs.Prelude.{◌≡◌, ◌≤◌, ◌+◌, OnOk};
ghost use Rattle.std.specs.HashMap.{get as found};
ghost use Rattle.slab.specs.Slab.{slab_len};
ghost use Rattle.kq_table.specs.Kept.{names_room};

use crate::Keyed;
use crate::node::{Ends, Node};
use kq_model::Memory;
use slab::Slab;
use std::collections::HashMap;
use std::hash::Hash;

/// Makes room for so many names, those that are noted included.
fn fit_names<K: Copy + Eq + Hash, V: Copy>(
    names: &mut HashMap<K, V>,
    most: usize,
) -> Result<(), Memory>
    ensures noted { (name : K) → found K.eq names.new name ≡ found K.eq names.old name }
    ensures room { names_room names.old ≤ names_room names.new }
    ensures fits { OnOk result (most ≤ names_room names.new) }
{
    let more = most.saturating_sub(names.len());
    if names.reserve(more).is_err() {
        return Err(Memory);
    }
    Ok(())
}

/// Makes room for `more` rows, with which there are `limit`, and for their keys and targets.
pub(crate) fn fit<T: Keyed>(
    nodes: &mut Slab<Node<T>>,
    index: &mut HashMap<T::Key, usize>,
    targets: &mut HashMap<T::Target, Ends>,
    more: usize,
    limit: usize,
) -> Result<(), Memory>
    requires { slab_len nodes.old + more ≡ limit }
    ensures nodes { nodes.new ≡ record nodes.old { capacity = nodes.new.capacity } }
    ensures keys { (key : T.Key) → found T.Key.eq index.new key ≡ found T.Key.eq index.old key }
    ensures targets { (target : T.Target) → found T.Target.eq targets.new target
        ≡ found T.Target.eq targets.old target }
    ensures nodes_room { nodes.old.capacity ≤ nodes.new.capacity }
    ensures keys_room { names_room index.old ≤ names_room index.new }
    ensures targets_room { names_room targets.old ≤ names_room targets.new }
    ensures nodes_fit { OnOk result (limit ≤ nodes.new.capacity) }
    ensures keys_fit { OnOk result (limit ≤ names_room index.new) }
    ensures targets_fit { OnOk result (limit ≤ names_room targets.new) }
{
    if nodes.reserve(more).is_err() {
        return Err(Memory);
    }
    // Some names more than rows, so that those that have gone are seldom dropped.
    let names = limit.saturating_add(limit / 4);
    fit_names(index, names)?;
    fit_names(targets, names)
}
