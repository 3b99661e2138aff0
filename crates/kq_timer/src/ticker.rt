//! A started timer, whether it repeats or expires at one moment alone.

ghost use Rattle.std.specs.Prelude.{◌≡◌, pos, ◌≤ℤ◌, unsigned_abs};
ghost use Rattle.kq_timer.specs.Timings.{started_at, ticks_of, IsFirstAfter};
ghost use Rattle.kq_timer.specs.declared.ticker.Kind.TheVariants as kind_of;

use crate::repeating::Repeating;
use crate::{Moment, Period, Timing};
use std::marker::Model;

/// A timer that was started at a moment, with the moments at which it expires: start + k times the period for
/// each k from 1, up to the moment 2^63 - 1; or a single one.
#[derive(Debug, Drop, Clone, Copy, PartialEq, Eq)]
pub struct Ticker {
    kind: Kind,
}

#[derive(Debug, Drop, Clone, Copy, PartialEq, Eq)]
enum Kind {
    Repeats(Repeating),
    Once(Moment),
}

impl Model for Ticker {
    ghost use Rattle.kq_timer.specs.declared.ticker.Kind.{Kind};

    ghost Value = { Kind };

    ghost view = { λ t. t.kind };

    ghost inverse = { λ k. record { kind = k } };
}

impl Ticker {
    /// The timer of this period that starts at the moment `start`, which is not negative.
    pub fn new(period: Period, start: i64) -> Ticker
        requires { pos 0 ≤ℤ start }
        ensures { result ≡ kind_of.Repeats (record { start = unsigned_abs start; period = period }) }
    {
        Ticker {
            kind: Kind::Repeats(Repeating::new(period, start)),
        }
    }

    /// The timer that is started at the moment `start`, which is not negative.
    pub fn of(timing: Timing, start: i64) -> Ticker
        requires { pos 0 ≤ℤ start }
        ensures { result ≡ started_at start timing }
    {
        match timing {
            Timing::Every(period) => Ticker::new(period, start),
            Timing::At(moment) => Ticker {
                kind: Kind::Once(moment),
            },
        }
    }

    /// How often the timer expires after the moment `from` and not after `to`, whether it repeats or expires once;
    /// `from` may be before the start.
    pub fn ticks(&self, from: i64, to: i64) -> i64
        requires past { pos 0 ≤ℤ from }
        requires ordered { from ≤ℤ to }
        ensures { result ≡ ticks_of self.now from to }
    {
        match self.kind {
            Kind::Repeats(repeating) => repeating.ticks(from, to),
            Kind::Once(moment) => moment.ticks(from, to),
        }
    }

    /// The moment of the first expiration after `from`, where there is one up to 2^63 - 1, whether the timer
    /// repeats or expires once. `from` may be any number, also a negative one.
    pub fn first_after(&self, from: i64) -> Option<i64>
        ensures { IsFirstAfter self.now from result }
    {
        match self.kind {
            Kind::Repeats(repeating) => repeating.first_after(from),
            Kind::Once(moment) => moment.first_after(from),
        }
    }
}
