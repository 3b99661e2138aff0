//! The parts of the node at a slot, read and set: the row, the number and the links.

ghost use Rattle.std.specs.Prelude.{◌≡◌, IsSome, Some, None};
ghost use Rattle.std.specs.Option.{option_and_then, option_copied};
ghost use Rattle.slab.specs.Slab.{get, slab_len};
ghost use Rattle.kq_table.specs.Threads.{after_of, births_in, links_in, links_of, rows_in, with_birth, with_links};
ghost use Rattle.kq_table.specs.Threads.{written, SameBut, SameButBirths};
ghost use Rattle.kq_table.specs.declared.node.Thread.{Thread as Threads};
ghost use Rattle.kq_table.specs.declared.node.Thread.TheVariants.{Queue};

use crate::node::{Links, Node, Thread};
use slab::Slab;

impl<T: Copy> Node<T> {
    pub(crate) fn links(&self, thread: Thread) -> Option<Links>
        ensures { result ≡ links_of thread (Some self.now) }
    {
        match thread {
            Thread::Order => Some(self.order),
            Thread::Watch => Some(self.watch),
            Thread::Queue => self.queue,
        }
    }

    fn set_links(&mut self, thread: Thread, links: Links)
        ensures { self.new ≡ with_links thread links self.old }
    {
        match thread {
            Thread::Order => self.order = links,
            Thread::Watch => self.watch = links,
            Thread::Queue => self.queue = Some(links),
        }
    }
}

/// The row at a slot, where one is named.
pub(crate) fn row_at<T: Copy>(nodes: &Slab<Node<T>>, slot: Option<usize>) -> Option<T>
    ensures { result ≡ option_and_then (rows_in nodes.now) slot }
{
    let Some(slot) = slot else {
        return None;
    };
    let Some(node) = nodes.get(slot) else {
        return None;
    };
    Some(node.row)
}

/// The row at a slot, where one is named, without a copy of it.
pub(crate) fn seen_at<T: Copy>(nodes: &Slab<Node<T>>, slot: Option<usize>) -> Option<&T>
    ensures { option_copied result ≡ option_and_then (rows_in nodes.now) slot }
{
    let Some(slot) = slot else {
        return None;
    };
    let Some(node) = nodes.get(slot) else {
        return None;
    };
    Some(&node.row)
}

/// The links at a slot.
#[inline(always)]
pub(crate) fn links_at<T: Copy>(nodes: &Slab<Node<T>>, thread: Thread, slot: usize) -> Option<Links>
    ensures { result ≡ links_in thread nodes.now slot }
{
    let Some(node) = nodes.get(slot) else {
        return None;
    };
    node.links(thread)
}

/// The slot behind one in a thread.
pub(crate) fn slot_behind<T: Copy>(
    nodes: &Slab<Node<T>>,
    thread: Thread,
    slot: usize,
) -> Option<usize>
    ensures { result ≡ after_of (links_in thread nodes.now slot) }
{
    let Some(links) = links_at(nodes, thread, slot) else {
        return None;
    };
    links.after
}

/// Gives the node at a slot these links.
#[inline(always)]
pub(crate) fn put_links<T: Copy>(
    nodes: &mut Slab<Node<T>>,
    thread: Thread,
    slot: usize,
    links: Links,
)
    requires { IsSome (get nodes.old slot) }
    ensures links { links_in thread nodes.new ≡ written slot (Some links) (links_in thread nodes.old) }
    ensures same { SameBut thread nodes.old nodes.new }
{
    nodes[slot].set_links(thread, links);
}

/// Takes the node at a slot out of the queue, whose neighbours are no longer linked with it.
#[inline(always)]
pub(crate) fn leave_queue<T: Copy>(nodes: &mut Slab<Node<T>>, slot: usize)
    requires { IsSome (get nodes.old slot) }
    ensures links { links_in Queue nodes.new ≡ written slot None (links_in Queue nodes.old) }
    ensures same { SameBut Queue nodes.old nodes.new }
{
    nodes[slot].queue = None;
}

/// Puts a row in the place of that at a slot.
pub(crate) fn set_row<T: Copy>(nodes: &mut Slab<Node<T>>, slot: usize, row: T)
    requires { IsSome (get nodes.old slot) }
    ensures rows { rows_in nodes.new ≡ written slot (Some row) (rows_in nodes.old) }
    ensures births { births_in nodes.new ≡ births_in nodes.old }
    ensures links { (thread : Threads) → links_in thread nodes.new ≡ links_in thread nodes.old }
    ensures len { slab_len nodes.new ≡ slab_len nodes.old }
    ensures capacity { nodes.new.capacity ≡ nodes.old.capacity }
{
    nodes[slot].row = row;
}

/// Gives the row at a slot, where there is one, this number in the order of attachment.
pub(crate) fn set_birth<T: Copy>(nodes: &mut Slab<Node<T>>, slot: usize, born: u64)
    ensures births { births_in nodes.new ≡ with_birth slot born (births_in nodes.old) }
    ensures same { SameButBirths nodes.old nodes.new }
{
    if let Some(node) = nodes.get_mut(slot) {
        node.born = born;
    }
}
