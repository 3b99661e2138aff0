//! A timer that expires again and again: how often in a span, and when next.

ghost use Rattle.std.specs.Prelude.{◌≡◌, pos, ◌≤ℤ◌, unsigned_abs, IfSome, MatchOption};
ghost use Rattle.kq_model.specs.Ticks.{is_tick};
ghost use Rattle.kq_model.specs.NextTicks.{ticks_between, IsNextTick, HasNoTick};

use crate::Period;
use std::marker::Model;

/// A timer that was started at a moment: it expires at start + k times the period for each k from 1,
/// up to the moment 2^63 - 1.
#[derive(Debug, Drop, Clone, Copy, PartialEq, Eq)]
pub(crate) struct Repeating {
    start: u64,
    period: u64,
}

impl Model for Repeating {
    ghost use Rattle.std.specs.Prelude.{◌<◌, ◌≤◌};
    ghost use Rattle.kq_model.specs.Ticks.{Ticking, last_moment};

    ghost Value = { Ticking };

    ghost view = { λ t. record { start = t.start; period = t.period } };

    ghost invariant = { λ t. (t.start ≤ last_moment) × (0 < t.period) × (t.period ≤ last_moment) };

    ghost inverse = { λ t. record { start = t.start; period = t.period } };
}

impl Repeating {
    /// The timer of this period that starts at the moment `start`, which is not negative.
    pub(crate) fn new(period: Period, start: i64) -> Repeating
        requires { pos 0 ≤ℤ start }
        ensures { result ≡ record { start = unsigned_abs start; period = period } }
    {
        Repeating {
            start: start as u64,
            period: period.nanoseconds(),
        }
    }

    /// How often the timer expires after the moment `from` and not after `to`; `from` may be before
    /// the start.
    #[tactic(auto, using(crate::proofs::Counts::ticks_found))]
    pub(crate) fn ticks(&self, from: i64, to: i64) -> i64
        requires past { pos 0 ≤ℤ from }
        requires ordered { from ≤ℤ to }
        ensures { result ≡ pos (ticks_between (is_tick self.now) (unsigned_abs from) (unsigned_abs to)) }
    {
        let before = (from as u64).saturating_sub(self.start) / self.period;
        let until = (to as u64).saturating_sub(self.start) / self.period;
        (until - before) as i64
    }

    /// The moment of the first expiration after `from`, where there is one up to 2^63 - 1. `from` may
    /// be any number, also a negative one.
    pub(crate) fn first_after(&self, from: i64) -> Option<i64>
        ensures next { MatchOption result (HasNoTick (is_tick self.now) from)
            (λ moment. IsNextTick (is_tick self.now) from (unsigned_abs moment)) }
        ensures not_negative { IfSome result (λ moment. pos 0 ≤ℤ moment) }
    {
        i64::try_from(self.next_after(from)).ok()
    }

    /// The moment of the first expiration after `from`, also where it is past 2^63 - 1.
    fn next_after(&self, from: i64) -> u64
        ensures { IsNextTick (is_tick self.now) from result }
    {
        let later = (from.max(0) as u64).max(self.start);
        later - (later - self.start) % self.period + self.period
    }
}
