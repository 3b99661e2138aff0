//! A slot put at the back of the queue or taken out of it, and the count kept right.

ghost use Rattle.std.specs.Prelude.{◌≡◌, ◌<◌, ◌+◌, ◌^◌, ◌++◌, ◌∷◌, [], ℕ, List};
ghost use Rattle.std.specs.Prelude.{IsSome, true, false};
ghost use Rattle.slab.specs.Slab.{get};
ghost use Rattle.kq_table.specs.Threads.{is_in, links_in, without_slot, IsQueue, SameBut};
ghost use Rattle.kq_table.specs.declared.node.Thread.TheVariants.{Queue};

use crate::link::{link_first, link_last, unlink};
use crate::node::{Ends, Node, Thread};
use crate::nodes::{leave_queue, links_at};
use slab::Slab;

/// Puts a slot at the back of the queue, where it is not in it.
#[inline(always)]
pub(crate) fn enqueue<T: Copy>(
    nodes: &mut Slab<Node<T>>,
    queue: &mut Ends,
    waiting: &mut usize,
    slot: usize,
)
    requires here { IsSome (get nodes.old slot) }
    requires fits { waiting.old + 1 < 2 ^ 64 }
    ensures queued { (waits : List ℕ) → is_in slot waits ≡ false
        → IsQueue (links_in Queue nodes.old) queue.old waits waiting.old
        → IsQueue (links_in Queue nodes.new) queue.new (waits ++ slot ∷ []) waiting.new }
    ensures same { SameBut Queue nodes.old nodes.new }
{
    link_last(nodes, Thread::Queue, queue, slot);
    *waiting += 1;
}

/// Takes a slot out of the queue, where it is in it.
#[inline(always)]
pub(crate) fn dequeue<T: Copy>(
    nodes: &mut Slab<Node<T>>,
    queue: &mut Ends,
    waiting: &mut usize,
    slot: usize,
)
    requires { IsSome (get nodes.old slot) }
    ensures queued { (waits : List ℕ) → IsQueue (links_in Queue nodes.old) queue.old waits waiting.old
        → IsQueue (links_in Queue nodes.new) queue.new (without_slot slot waits) waiting.new }
    ensures same { SameBut Queue nodes.old nodes.new }
{
    let Some(_) = links_at(nodes, Thread::Queue, slot) else {
        return;
    };
    unlink(nodes, Thread::Queue, queue, slot);
    leave_queue(nodes, slot);
    *waiting = waiting.saturating_sub(1);
}

/// Takes a slot of the queue to its front.
pub(crate) fn requeue_first<T: Copy>(nodes: &mut Slab<Node<T>>, ends: &mut Ends, slot: usize)
    requires { IsSome (get nodes.old slot) }
    ensures queued { (waits : List ℕ) (waiting : ℕ) → is_in slot waits ≡ true
        → IsQueue (links_in Queue nodes.old) ends.old waits waiting
        → IsQueue (links_in Queue nodes.new) ends.new (slot ∷ without_slot slot waits) waiting }
    ensures same { SameBut Queue nodes.old nodes.new }
{
    unlink(nodes, Thread::Queue, ends, slot);
    link_first(nodes, Thread::Queue, ends, slot);
}
