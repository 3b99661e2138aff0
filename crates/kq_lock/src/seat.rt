//! A caller's place at a lock, and how one becomes two and two become one.

ghost use Rattle.std.specs.Prelude.{◌≡◌, ◌+◌, false, []};
ghost use mathlib.Core.List.{IsPrefix};
ghost use Rattle.kq_lock.specs.Calls.{calls_by, longer};
ghost use Rattle.kq_lock.specs.Seats.{AreHalves, own_calls};
ghost use Rattle.kq_lock.specs.Turns.{IsLockTable};

use crate::machine::Machine;
use crate::plays::{Halves, Merge, Settle};
use crate::rule::{LENGTH, SharedTable, TableSeat};
use std::marker::Model;

/// A caller's place at one lock. What it has seen of the lock's history exists in proofs alone.
#[derive(Drop)]
pub struct TurnSeat<M: Machine> {
    /// The right to step on the lock's table, with what the seat knows of it.
    pub(crate) token: TableSeat<M>,
    /// How many calls it has seen.
    pub(crate) seen_len: u64,
}

impl<M: Machine> Model for TurnSeat<M> {
    ghost use Rattle.std.specs.Prelude.{◌≡◌, length, []};
    ghost use Rattle.kq_lock.specs.Calls.{IsNumbered};
    ghost use Rattle.kq_lock.specs.Seats.{Seated};
    ghost use Rattle.kq_lock.specs.declared.view.Stage.TheVariants.{Idle};

    ghost Value = { Seated M M.Step M.Answer };

    ghost view = { λ s. record {
      lock = record {
        table = s.token.table_id;
        opening = s.token.me.0.opening;
        last = s.token.me.0.last;
      };
      number = s.token.me.0.number;
      stride = s.token.me.0.stride;
      seen = s.token.me.0.seen;
      worn = s.token.me.0.worn;
    } };

    ghost invariant = { λ s.
        (s.token.me.0.stage ≡ Idle) × (s.token.me.1 ≡ [])
        × (s.seen_len ≡ length s.token.me.0.seen)
        × IsNumbered s.token.me.0.number s.token.me.0.stride s.token.me.0.seen };
}

impl<M: Machine> TurnSeat<M> {
    // Cuts the seat in two. Each of the two has some of the numbers that it owned.
    pub(crate) fn part(&mut self, table: &SharedTable<M>) -> TurnSeat<M>
        requires table { self.old.lock.table ≡ table.now.table_id }
        requires lock { IsLockTable table.now.table_id }
        ensures kept { self.new ≡ record self.old { stride = self.old.stride + self.old.stride } }
        ensures new { result ≡ record self.old {
          number = self.old.number + self.old.stride;
          stride = self.old.stride + self.old.stride;
          worn = false;
        } }
        ensures halves { AreHalves self.old self.new result }
        ensures none { own_calls result ≡ [] }
    {
        let token = table.split_seat::<Halves>(&mut self.token);
        TurnSeat {
            token,
            seen_len: self.seen_len,
        }
    }

    // Makes one seat of the two. It takes a second load, since only a rule that holds now can tell
    // that one of the two lists begins the other.
    pub(crate) fn absorb(&mut self, table: &SharedTable<M>, other: TurnSeat<M>)
        requires table { self.old.lock.table ≡ table.now.table_id }
        requires other { other.lock.table ≡ table.now.table_id }
        requires lock { IsLockTable table.now.table_id }
        ensures same { self.new ≡ record self.old { seen = longer self.old.seen other.seen } }
        ensures begins { IsPrefix self.old.seen self.new.seen }
        ensures learned { IsPrefix other.seen self.new.seen }
        ensures own { own_calls self.new ≡ own_calls self.old }
        ensures theirs { calls_by other.number self.new.seen ≡ own_calls other }
    {
        let TurnSeat { token, seen_len } = other;
        table.join_seat::<Merge>(&mut self.token, token);
        table.load::<Settle>(&mut self.token, LENGTH);
        self.seen_len = self.seen_len.max(seen_len);
    }
}
