//! The counter that hands out the numbers of the jobs.
ghost use Rattle.std.specs.Prelude.{◌≡◌, ℕ, ◌+◌, ◌-◌, ◌^◌, ◌<◌, ◌≤◌, ◌++◌};
ghost use Rattle.std.specs.Prelude.{◌∷◌, [], true, false};
ghost use Rattle.std.specs.Prelude.{None, All, IfOk, IfSome, IfNone};
ghost use Rattle.kq_jobs.specs.Claims.{IsAtMostOnce, HasAll};

use crate::plays::{Draw, Merge, OnePart, Settle};
use crate::rule::{CLAIM, CounterTable};
use crate::seat::ClaimSeat;
use kq_model::Memory;
use std::alloc::Global;
use std::marker::Model;

/// Hands out the numbers from 0 on, as many as there are, each once among all seats.
#[derive(Drop)]
pub struct ClaimCounter {
    table: CounterTable,
    /// How many numbers there are to hand out.
    count: u64,
}

impl Model for ClaimCounter {
    ghost use Rattle.std.specs.Prelude.{◌≡◌, ◌≤◌, ◌^◌};
    ghost use Rattle.kq_jobs.specs.Claims.{CounterName};

    ghost Value = { CounterName };

    ghost view = { λ c. record {
      table = c.table.shared.table_id;
      count = c.count;
    } };

    ghost invariant = { λ c.
        (c.table.shared.table_id.words ≡ 1) × (c.table.shared.key ≡ c.count) × (c.count ≤ 2 ^ 62) };
}

impl ClaimCounter {
    /// A counter of so many numbers, at most 2^62, with its first seat, which can be split into 256.
    pub fn new(alloc: Global, count: u64) -> Result<(ClaimCounter, ClaimSeat), Memory>
        requires { count ≤ 2 ^ 62 }
        ensures counter { IfOk result (λ r. r.0.count ≡ count) }
        ensures seat { IfOk result (λ r.
            r.1 ≡ record { counter = r.0; parts = 256; numbers = []; done = false }) }
    {
        let Ok((table, token)) = CounterTable::of_words(alloc, [0].as_slice(), &count) else {
            return Err(Memory);
        };
        Ok((
            ClaimCounter { table, count },
            ClaimSeat { token, done: false },
        ))
    }

    /// The next number that no seat has got yet, or `None` where all were handed out. It waits for nobody.
    pub fn claim(&self, seat: &mut ClaimSeat) -> Option<u64>
        requires { seat.old.counter ≡ self.now }
        ensures same { (seat.new.counter ≡ seat.old.counter) × (seat.new.parts ≡ seat.old.parts) }
        ensures below { IfSome result (λ n. n < self.now.count) }
        ensures some { IfSome result (λ n.
            seat.new ≡ record seat.old { numbers = seat.old.numbers ++ n ∷ [] }) }
        ensures rises { IfSome result (λ n. All (λ m. m < n) seat.old.numbers) }
        ensures none { IfNone result (seat.new ≡ record seat.old { done = true }) }
        ensures done { seat.old.done ≡ true → result ≡ None }
    {
        if seat.done {
            return None;
        }
        let number = self
            .table
            .shared
            .fetch_add::<Draw>(&mut seat.token, CLAIM, 1);
        if number < self.count {
            return Some(number);
        }
        seat.done = true;
        None
    }

    /// A seat of its own, which has claimed nothing. It waits for nobody.
    pub fn split(&self, seat: &mut ClaimSeat) -> ClaimSeat
        requires seat { seat.old.counter ≡ self.now }
        requires parts { (1 < seat.old.parts) × (seat.old.done ≡ false) }
        ensures kept { seat.new ≡ record seat.old { parts = seat.old.parts - 1 } }
        ensures new { result ≡ record { counter = self.now; parts = 1; numbers = []; done = false } }
    {
        let token = self.table.shared.split_seat::<OnePart>(&mut seat.token);
        ClaimSeat { token, done: false }
    }

    /// The first seat has what both have claimed, of which no number is there twice. Where it has the parts
    /// of all seats, and was told that all numbers were handed out, it has them all. It waits for nobody.
    pub fn join(&self, seat: &mut ClaimSeat, other: ClaimSeat)
        requires seat { seat.old.counter ≡ self.now }
        requires other { other.counter ≡ self.now }
        ensures counter { seat.new.counter ≡ self.now }
        ensures parts { seat.new.parts ≡ seat.old.parts + other.parts }
        ensures numbers { seat.new.numbers ≡ seat.old.numbers ++ other.numbers }
        ensures told { seat.old.done ≡ true → seat.new.done ≡ true }
        ensures told_other { other.done ≡ true → seat.new.done ≡ true }
        ensures once { IsAtMostOnce seat.new.numbers }
        ensures all { seat.new.parts ≡ 256 → seat.new.done ≡ true → HasAll self.now.count seat.new.numbers }
    {
        let ClaimSeat { token, done } = other;
        let table = &self.table.shared;
        table.join_seat::<Merge>(&mut seat.token, token);
        table.load::<Settle>(&mut seat.token, CLAIM);
        seat.done = seat.done || done;
    }
}
