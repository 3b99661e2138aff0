//! What the lock's table is told, and what a seat at it knows.
use std::collections::LinkedList;
use std::snapshot::Snapshot;

/// What the table is told once: the value at the start, and how many tickets there are.
#[derive(Drop)]
pub struct About<M> {
    pub opening: Snapshot<M>,
    pub last: u64,
}

/// A call with the number of the seat that made it. No value of it is made.
pub struct Call<S, A> {
    pub number: u64,
    pub step: S,
    pub answer: A,
}

/// Where a seat stands. No value of it is made.
pub enum Stage<M, S, A> {
    /// It was joined to another seat.
    Spent,
    Idle,
    /// It was just joined with another: what each had seen, and the number and stride of the other.
    Joined(LinkedList<Call<S, A>>, LinkedList<Call<S, A>>, u64, u64),
    /// It has this ticket.
    Waits(u64),
    /// It has the turn with this ticket, and took out this value with this history.
    Holds(u64, M, LinkedList<Call<S, A>>),
    /// It has the turn with this ticket, and LENGTH is raised: the value to put back, and the history with this call.
    Raised(u64, M, LinkedList<Call<S, A>>),
}

/// What a seat knows. No value of it is made.
pub struct View<M, S, A> {
    /// The value at the start, which only a spent seat lacks.
    pub opening: Option<M>,
    pub last: u64,
    /// The seat owns each number that leaves `number` when divided by `stride`.
    pub number: u64,
    pub stride: u64,
    pub seen: LinkedList<Call<S, A>>,
    pub worn: bool,
    /// SERVING was found to be this, and never falls.
    pub bound: u64,
    pub stage: Stage<M, S, A>,
}
