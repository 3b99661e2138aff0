//! The lock's table. Word 0 is LENGTH, how many calls the history has. Word 1 is TICKET, the next
//! ticket to be drawn. Word 2 is SERVING, the ticket whose turn it is. Slot 0 has the value with its
//! history, or `None` while a seat has them.
use crate::kept::Kept;
use crate::machine::Machine;
use crate::view::{About, View};
use atomic_table::{Seat, Shared, Table, TableRule};
use std::alloc::Global;
use std::marker::PhantomData;

pub const LENGTH: usize = 0;

pub const TICKET: usize = 1;

pub const SERVING: usize = 2;

/// The rule of the table.
pub struct Turns<M> {
    machine: PhantomData<M>,
}

impl<M: Machine> TableRule<
    Option<Kept<M, M::Step, M::Answer>>,
    View<M, M::Step, M::Answer>,
    About<M>,
> for Turns<M> {
    ghost use Rattle.kq_lock.specs.Turns.{Turned, newcomer};

    ghost holds = { λ key. Turned M.leads key.opening.value key.last };

    ghost first = { λ key. newcomer key.opening.value key.last };
}

/// What lies in the slot.
pub type Slot<M> = Option<Kept<M, <M as Machine>::Step, <M as Machine>::Answer>>;

/// What a seat knows, in proofs alone.
pub type Knowledge<M> = View<M, <M as Machine>::Step, <M as Machine>::Answer>;

/// The table, which the lock owns.
pub type LockTable<M> = Table<Slot<M>, Knowledge<M>, About<M>, Turns<M>, Global>;

/// The part of the table that steps are taken on, through a `&`.
pub type SharedTable<M> = Shared<Slot<M>, Knowledge<M>, About<M>, Turns<M>>;

/// The right to step on the table.
pub type TableSeat<M> = Seat<Slot<M>, Knowledge<M>>;
