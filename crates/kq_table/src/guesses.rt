//! Where rows were last put, in an array that may be wrong: who reads it looks there.

use crate::Keyed;
use crate::node::{Node, Thread};
use crate::nodes::slot_behind;
use crate::placed::Place;
use slab::Slab;
use std::alloc::Global;

/// The fewest places that are kept of keys, and of targets.
const FEWEST: usize = 8;

/// Where rows were last put, by a number of their key and by one of what they watch. It claims nothing: rows of other
/// keys may have the same number, and a row may have gone. Who takes a guess looks at what stands there.
#[derive(Drop)]
pub struct Guesses {
    /// A power of two, or 0 where there is no memory for guesses.
    size: usize,
    /// For each number of a key a slot, then for each number of a target one.
    slots: Vec<u32>,
}

impl Guesses {
    pub(crate) fn new(alloc: Global) -> Guesses {
        Guesses {
            size: 0,
            slots: Vec::new(alloc),
        }
    }

    /// Makes room for the guesses of so many rows. Where there was less, it is true, and those that stood there are
    /// gone. Where memory is wanting there are none.
    pub(crate) fn fit(&mut self, rows: usize) -> bool {
        if rows <= self.size / 2 {
            return false;
        }
        let size = rows
            .saturating_mul(2)
            .max(FEWEST)
            .checked_next_power_of_two()
            .unwrap_or(0);
        let length = size.saturating_mul(2);
        self.size = 0;
        self.slots.clear();
        if self.slots.resize(length, u32::MAX).is_err() {
            return false;
        }
        self.size = size;
        true
    }

    /// Where the row of a key with this number may stand.
    #[inline(always)]
    pub(crate) fn of_key(&self, number: usize) -> Place {
        self.at(self.index(number))
    }

    /// Where the first row that watches a target with this number may stand.
    #[inline(always)]
    pub(crate) fn of_target(&self, number: usize) -> Place {
        self.at(self.index(number).saturating_add(self.size))
    }

    pub(crate) fn note_key(&mut self, number: usize, slot: usize) {
        self.note(self.index(number), slot);
    }

    pub(crate) fn note_target(&mut self, number: usize, slot: usize) {
        self.note(self.index(number).saturating_add(self.size), slot);
    }

    /// Less than the size, where there is any.
    fn index(&self, number: usize) -> usize {
        number & self.size.saturating_sub(1)
    }

    fn at(&self, index: usize) -> Place {
        match self.slots.get(index) {
            None => Place::nowhere(),
            Some(slot) => Place {
                slot: *slot as usize,
            },
        }
    }

    fn note(&mut self, index: usize, slot: usize) {
        if let Some(at) = self.slots.get_mut(index) {
            *at = u32::try_from(slot).unwrap_or(u32::MAX);
        }
    }
}

/// Notes where the row at a slot stands, and that it is the first that watches its target, if it is.
pub(crate) fn note_row<T: Keyed>(nodes: &Slab<Node<T>>, slot: usize, guesses: &mut Guesses) {
    let Some(node) = nodes.get(slot) else {
        return;
    };
    guesses.note_key(T::number_of_key(node.row.key()), slot);
    if node.watch.before.is_none()
        && let Some(target) = node.row.target()
    {
        guesses.note_target(T::number_of_target(target), slot);
    }
}

/// Notes who is the first that watches a target, once the row at a slot, which is the first, has gone.
pub(crate) fn note_heir<T: Keyed>(nodes: &Slab<Node<T>>, slot: usize, guesses: &mut Guesses) {
    let Some(node) = nodes.get(slot) else {
        return;
    };
    if node.watch.before.is_none()
        && let Some(heir) = node.watch.after
        && let Some(target) = node.row.target()
    {
        guesses.note_target(T::number_of_target(target), heir);
    }
}

/// Makes room for the guesses of so many rows. Where there was less, it is noted anew where each row stands.
pub(crate) fn make_room_for_guesses<T: Keyed>(
    nodes: &Slab<Node<T>>,
    first: Option<usize>,
    rows: usize,
    guesses: &mut Guesses,
) {
    if !guesses.fit(rows) {
        return;
    }
    let mut next = first;
    for _step in 0..nodes.len() {
        let Some(slot) = next else {
            return;
        };
        note_row(nodes, slot, guesses);
        next = slot_behind(nodes, Thread::Order, slot);
    }
}
