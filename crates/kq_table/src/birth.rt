//! The rising numbers of rows by their attachment, and all of them given anew at their end.

ghost use Rattle.std.specs.Prelude.{◌≡◌, ◌<◌, ◌+◌, ◌^◌, ℕ, List, None, length};
ghost use Rattle.slab.specs.Slab.{slab_len};
ghost use Rattle.kq_table.specs.Kept.{AreBorn};
ghost use Rattle.kq_table.specs.Threads.{births_in, head_or, links_in, AreDistinct, AreLinked, SameButBirths};
ghost use Rattle.kq_table.specs.declared.node.Thread.TheVariants.{Order};

use crate::node::{Node, Thread};
use crate::nodes::{set_birth, slot_behind};
use slab::Slab;

/// Numbers the rows anew in the order of attachment.
fn number_anew<T: Copy>(nodes: &mut Slab<Node<T>>, first: Option<usize>)
    ensures born { (slots : List ℕ) → AreLinked (links_in Order nodes.old) None slots None → AreDistinct slots
        → first ≡ head_or None slots → slab_len nodes.old ≡ length slots
        → AreBorn (births_in nodes.new) 0 (slab_len nodes.old) slots }
    ensures same { SameButBirths nodes.old nodes.new }
{
    let mut next = first;
    for step in 0..nodes.len() {
        let Some(slot) = next else {
            return;
        };
        set_birth(nodes, slot, step as u64);
        next = slot_behind(nodes, Thread::Order, slot);
    }
}

/// The number of the row that is attached next. Where the numbers are at their end, the rows are numbered anew.
pub(crate) fn next_birth<T: Copy>(
    nodes: &mut Slab<Node<T>>,
    first: Option<usize>,
    births: &mut u64,
) -> u64
    requires { slab_len nodes.old + 1 < 2 ^ 64 }
    ensures next { births.new ≡ result + 1 }
    ensures born { (slots : List ℕ) → AreLinked (links_in Order nodes.old) None slots None → AreDistinct slots
        → first ≡ head_or None slots → slab_len nodes.old ≡ length slots
        → AreBorn (births_in nodes.old) 0 births.old slots → AreBorn (births_in nodes.new) 0 result slots }
    ensures same { SameButBirths nodes.old nodes.new }
{
    if *births == u64::MAX {
        number_anew(nodes, first);
        *births = nodes.len() as u64;
    }
    let born = *births;
    *births += 1;
    born
}
