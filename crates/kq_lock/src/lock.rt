//! The lock: how it is made, gets more seats, and is taken apart into its value and history.

ghost use Rattle.std.specs.Prelude.{◌≡◌, ◌+◌, ◌^◌, ◌≤◌, Some, false, [], length, vec_len};
ghost use Rattle.std.specs.Prelude.{IfOk, IfErr};
ghost use mathlib.Core.List.{IsPrefix};
ghost use Rattle.kq_lock.specs.Calls.{calls_by, longer};
ghost use Rattle.kq_lock.specs.Seats.{IsFresh, EachSeat, AreApart, AllParted, AreHalves, Ends};
ghost use Rattle.kq_lock.specs.Seats.{own_calls};

use crate::entry::Entry;
use crate::error::TurnError;
use crate::kept::Kept;
use crate::machine::Machine;
use crate::rule::{LockTable, SERVING, Slot, TICKET};
use crate::seat::TurnSeat;
use crate::view::About;
use crate::waiting::Waiting;
use std::alloc::Global;
use std::marker::Model;
use std::snapshot::Snapshot;

/// A machine under a ticket lock, with the history of its calls.
#[derive(Drop)]
pub struct TurnLock<M: Machine> {
    pub(crate) table: LockTable<M>,
    /// Where calls sleep that wait for their turn, which no contract sees.
    pub(crate) waiting: Waiting,
    /// How many tickets there are.
    pub(crate) last: u64,
}

impl<M: Machine> Model for TurnLock<M> {
    ghost use Rattle.std.specs.Prelude.{◌≡◌, ◌≤◌, ◌^◌, Some};
    ghost use Rattle.kq_lock.specs.Seats.{LockName};

    ghost Value = { LockName M };

    ghost view = { λ l. record {
      table = l.table.shared.table_id;
      opening = Some l.table.shared.key.opening.value;
      last = l.last;
    } };

    ghost invariant = { λ l.
        (l.table.shared.table_id.words ≡ 3) × (l.table.shared.table_id.slots ≡ 1)
        × (l.table.shared.key.last ≡ l.last) × (l.last ≤ 2 ^ 62) };
}

impl<M: Machine> TurnLock<M> {
    /// Puts the machine under a lock with `seats` seats, 1 to 64 of them, and `last` tickets, at most 2^62.
    /// Each call draws a ticket. `Memory` comes only where a growth was refused.
    pub fn new(
        alloc: Global,
        machine: M,
        seats: usize,
        last: u64,
    ) -> Result<(TurnLock<M>, Vec<TurnSeat<M>>), TurnError>
        requires seats { (1 ≤ seats) × (seats ≤ 64) }
        requires last { last ≤ 2 ^ 62 }
        ensures lock { IfOk result (λ r. (r.0.opening ≡ Some machine) × (r.0.last ≡ last)) }
        ensures count { IfOk result (λ r. vec_len r.1 ≡ seats) }
        ensures fresh { IfOk result (λ r. EachSeat (IsFresh r.0) r.1.items) }
        ensures apart { IfOk result (λ r. AreApart r.1.items) }
        ensures parted { IfOk result (λ r. AllParted r.1.items) }
        ensures err { IfErr result (λ e. e ≡ TurnError.Memory) }
    {
        let mut all = Vec::with_capacity(alloc, seats).map_err(|_| TurnError::Memory)?;
        let (lock, mut first) = TurnLock::open(alloc, machine, last)?;
        for _ in 1..seats {
            let next = lock.split(&mut first);
            all.push_reserved(next);
        }
        all.push_reserved(first);
        Ok((lock, all))
    }

    // The lock with its first seat.
    fn open(alloc: Global, machine: M, last: u64) -> Result<(TurnLock<M>, TurnSeat<M>), TurnError>
        requires { last ≤ 2 ^ 62 }
        ensures lock { IfOk result (λ r. (r.0.opening ≡ Some machine) × (r.0.last ≡ last)) }
        ensures seat { IfOk result (λ r. IsFresh r.0 r.1 × (r.1.number ≡ 0) × (r.1.stride ≡ 1)) }
        ensures err { IfErr result (λ e. e ≡ TurnError.Memory) }
    {
        let about = About {
            opening: Snapshot::of(&machine),
            last,
        };
        let kept = Kept {
            value: machine,
            history: Vec::new(alloc),
        };
        let mut slots: Vec<Slot<M>> = Vec::with_capacity(alloc, 1).map_err(|_| TurnError::Memory)?;
        slots.push_reserved(Some(kept));
        let Ok((table, token)) = LockTable::<M>::new(alloc, [0, 0, 0].as_slice(), slots, &about)
        else {
            return Err(TurnError::Memory);
        };
        let lock = TurnLock {
            table,
            waiting: Waiting::new(),
            last,
        };
        Ok((lock, TurnSeat { token, seen_len: 0 }))
    }

    /// A seat of its own that has seen as much. It waits for nobody.
    pub fn split(&self, seat: &mut TurnSeat<M>) -> TurnSeat<M>
        requires { seat.old.lock ≡ self.now }
        ensures kept { seat.new ≡ record seat.old { stride = seat.old.stride + seat.old.stride } }
        ensures new { result ≡ record seat.old {
          number = seat.old.number + seat.old.stride;
          stride = seat.old.stride + seat.old.stride;
          worn = false;
        } }
        // No number that a seat owned, of this lock or split off later, is the new seat's as well.
        ensures halves { AreHalves seat.old seat.new result }
        ensures none { own_calls result ≡ [] }
    {
        seat.part(&self.table.shared)
    }

    /// The first seat learns what the other had seen. It waits for nobody.
    pub fn join(&self, seat: &mut TurnSeat<M>, other: TurnSeat<M>)
        requires seat { seat.old.lock ≡ self.now }
        requires other { other.lock ≡ self.now }
        ensures same { seat.new ≡ record seat.old { seen = longer seat.old.seen other.seen } }
        ensures begins { IsPrefix seat.old.seen seat.new.seen }
        ensures learned { IsPrefix other.seen seat.new.seen }
        ensures own { own_calls seat.new ≡ own_calls seat.old }
        ensures theirs { calls_by other.number seat.new.seen ≡ own_calls other }
    {
        seat.absorb(&self.table.shared, other);
    }

    /// How many calls of the lock's history the seat has seen.
    pub fn seen_len(seat: &TurnSeat<M>) -> u64
        ensures { result ≡ length seat.now.seen }
    {
        seat.seen_len
    }

    /// Takes the lock apart, into the value and the history of all calls that led to it, in order.
    /// It waits for nobody. It answers `Memory` where a call still has a ticket, which no caller can
    /// bring about.
    pub fn close(self, seat: TurnSeat<M>) -> Result<(M, Vec<Entry<M::Step, M::Answer>>), TurnError>
        requires { seat.lock ≡ self }
        ensures ok { IfOk result (λ r. Ends M.leads self seat r.0 r.1.items) }
        ensures err { IfErr result (λ e. e ≡ TurnError.Memory) }
    {
        let TurnSeat { token, seen_len: _ } = seat;
        let mut closed = self.table.close_with(token);
        let free = closed.word(TICKET) == closed.word(SERVING);
        let slot = closed.take(0);
        closed.free();
        match slot {
            Some(Kept { value, history }) if free => Ok((value, history)),
            _ => Err(TurnError::Memory),
        }
    }
}
