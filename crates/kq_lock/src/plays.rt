//! What each step on the table tells the seat that takes it, for the prover alone.
ghost use Rattle.kq_lock.specs.Turns.{LooksAtTicket, Draws, Seizes, LooksAtTurn, Enters, Raises};
ghost use Rattle.kq_lock.specs.Turns.{PassesOn, Settles, first_half, second_half, joined, spent};

use crate::kept::Kept;
use crate::machine::Machine;
use crate::view::View;
use atomic_table::{Join, Play, Split};
use std::marker::PhantomData;

/// A load of TICKET.
pub struct LookAtTicket;

impl<M, S, A> Play<Option<Kept<M, S, A>>, View<M, S, A>> for LookAtTicket {
    ghost then = { LooksAtTicket };
}

/// The exchange that draws a ticket.
pub struct Draw;

impl<M, S, A> Play<Option<Kept<M, S, A>>, View<M, S, A>> for Draw {
    ghost then = { Draws };
}

/// The exchange that draws the ticket whose turn it is.
pub struct Seize<M> {
    machine: PhantomData<M>,
}

impl<M: Machine> Play<Option<Kept<M, M::Step, M::Answer>>, View<M, M::Step, M::Answer>>
    for Seize<M> {
    ghost then = { Seizes M.leads };
}

/// A load of SERVING by a seat with no ticket.
pub struct LookAtTurn;

impl<M, S, A> Play<Option<Kept<M, S, A>>, View<M, S, A>> for LookAtTurn {
    ghost then = { LooksAtTurn };
}

/// A load of SERVING by a seat with a ticket.
pub struct Enter<M> {
    machine: PhantomData<M>,
}

impl<M: Machine> Play<Option<Kept<M, M::Step, M::Answer>>, View<M, M::Step, M::Answer>>
    for Enter<M> {
    ghost then = { Enters M.leads };
}

/// The store that raises LENGTH.
pub struct Raise;

impl<M, S, A> Play<Option<Kept<M, S, A>>, View<M, S, A>> for Raise {
    ghost then = { Raises };
}

/// The store that raises SERVING.
pub struct PassOn;

impl<M, S, A> Play<Option<Kept<M, S, A>>, View<M, S, A>> for PassOn {
    ghost then = { PassesOn };
}

/// A load of LENGTH after two seats were joined.
pub struct Settle;

impl<M, S, A> Play<Option<Kept<M, S, A>>, View<M, S, A>> for Settle {
    ghost then = { Settles };
}

/// How a seat is cut in two.
pub struct Halves;

impl<M, S, A> Split<View<M, S, A>> for Halves {
    ghost left = { first_half };

    ghost right = { second_half };
}

/// How two seats are made one.
pub struct Merge;

impl<M, S, A> Join<View<M, S, A>> for Merge {
    ghost both = { joined };

    ghost spent = { spent };
}
