//! Slots linked with each other: one is put at the end of a thread, or taken out of it.

ghost use Rattle.std.specs.Prelude.{◌≡◌, IsSome};
ghost use Rattle.slab.specs.Slab.{get};
ghost use Rattle.kq_table.specs.Threads.{ends_led, ends_past, ends_with, joined, joined_ends, links_in, passed_over};
ghost use Rattle.kq_table.specs.Threads.{put_first, put_last, with_after, with_before, SameBut};

use crate::node::{Ends, Links, Node, Thread};
use crate::nodes::{links_at, put_links};
use slab::Slab;

/// Links a slot, where one is named and in the thread, with another one behind it.
#[inline(always)]
fn set_after<T: Copy>(
    nodes: &mut Slab<Node<T>>,
    thread: Thread,
    at: Option<usize>,
    after: Option<usize>,
)
    ensures links { links_in thread nodes.new ≡ with_after at after (links_in thread nodes.old) }
    ensures same { SameBut thread nodes.old nodes.new }
{
    let Some(slot) = at else {
        return;
    };
    if let Some(links) = links_at(nodes, thread, slot) {
        put_links(nodes, thread, slot, Links { after, ..links });
    }
}

/// Links a slot, where one is named and in the thread, with another one before it.
#[inline(always)]
fn set_before<T: Copy>(
    nodes: &mut Slab<Node<T>>,
    thread: Thread,
    at: Option<usize>,
    before: Option<usize>,
)
    ensures links { links_in thread nodes.new ≡ with_before at before (links_in thread nodes.old) }
    ensures same { SameBut thread nodes.old nodes.new }
{
    let Some(slot) = at else {
        return;
    };
    if let Some(links) = links_at(nodes, thread, slot) {
        put_links(nodes, thread, slot, Links { before, ..links });
    }
}

/// Links a slot behind the last one.
#[inline(always)]
pub(crate) fn link_last<T: Copy>(
    nodes: &mut Slab<Node<T>>,
    thread: Thread,
    ends: &mut Ends,
    slot: usize,
)
    requires { IsSome (get nodes.old slot) }
    ensures links { links_in thread nodes.new ≡ put_last ends.old.last slot (links_in thread nodes.old) }
    ensures ends { ends.new ≡ ends_with slot ends.old }
    ensures same { SameBut thread nodes.old nodes.new }
{
    let last = ends.last;
    put_links(
        nodes,
        thread,
        slot,
        Links {
            before: last,
            after: None,
        },
    );
    set_after(nodes, thread, last, Some(slot));
    if last.is_none() {
        ends.first = Some(slot);
    }
    ends.last = Some(slot);
}

/// Links a slot before the first one.
pub(crate) fn link_first<T: Copy>(
    nodes: &mut Slab<Node<T>>,
    thread: Thread,
    ends: &mut Ends,
    slot: usize,
)
    requires { IsSome (get nodes.old slot) }
    ensures links { links_in thread nodes.new ≡ put_first ends.old.first slot (links_in thread nodes.old) }
    ensures ends { ends.new ≡ ends_led slot ends.old }
    ensures same { SameBut thread nodes.old nodes.new }
{
    let first = ends.first;
    put_links(
        nodes,
        thread,
        slot,
        Links {
            before: None,
            after: first,
        },
    );
    set_before(nodes, thread, first, Some(slot));
    if first.is_none() {
        ends.last = Some(slot);
    }
    ends.first = Some(slot);
}

/// Makes two slots neighbours; None is what is beyond the ends.
#[inline(always)]
fn join<T: Copy>(
    nodes: &mut Slab<Node<T>>,
    thread: Thread,
    ends: &mut Ends,
    before: Option<usize>,
    after: Option<usize>,
)
    ensures links { links_in thread nodes.new ≡ joined before after (links_in thread nodes.old) }
    ensures ends { ends.new ≡ joined_ends before after ends.old }
    ensures same { SameBut thread nodes.old nodes.new }
{
    if before.is_none() {
        ends.first = after;
    }
    if after.is_none() {
        ends.last = before;
    }
    set_after(nodes, thread, before, after);
    set_before(nodes, thread, after, before);
}

/// Makes the neighbours of a slot neighbours of each other.
#[inline(always)]
pub(crate) fn unlink<T: Copy>(
    nodes: &mut Slab<Node<T>>,
    thread: Thread,
    ends: &mut Ends,
    slot: usize,
)
    ensures links { links_in thread nodes.new
        ≡ passed_over (links_in thread nodes.old slot) (links_in thread nodes.old) }
    ensures ends { ends.new ≡ ends_past (links_in thread nodes.old slot) ends.old }
    ensures same { SameBut thread nodes.old nodes.new }
{
    if let Some(links) = links_at(nodes, thread, slot) {
        join(nodes, thread, ends, links.before, links.after);
    }
}
