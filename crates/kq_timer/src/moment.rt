//! Moments of the clock, and a timer that expires at one.

ghost use Rattle.std.specs.Prelude.{◌≡◌, ◌≤◌, pos, ◌≤ℤ◌, unsigned_abs, IfOk, IfSome, MatchOption};
ghost use Rattle.std.specs.Option.{ok_or};
ghost use Rattle.kq_model.specs.Ticks.{is_tick, last_moment, named_moment};
ghost use Rattle.kq_model.specs.NextTicks.{ticks_between, IsNextTick, HasNoTick};

use crate::period::unit_of_flags;
use kq_model::Errno;
use std::marker::Model;

/// A moment of the clock, from 0 to 2^63 - 1, in nanoseconds from its first one. Contracts see the
/// number of nanoseconds.
#[derive(Debug, Drop, Clone, Copy, PartialEq, Eq)]
pub struct Moment {
    nanoseconds: u64,
}

impl Model for Moment {
    ghost use Rattle.std.specs.Prelude.{ℕ, ◌≤◌};
    ghost use Rattle.kq_model.specs.Ticks.{last_moment};

    ghost Value = { ℕ };

    ghost view = { λ m. m.nanoseconds };

    ghost invariant = { λ m. m.nanoseconds ≤ last_moment };

    ghost inverse = { λ n. record { nanoseconds = n } };
}

impl Moment {
    /// The moment that is `datum` units after the clock's first one, of the unit that `fflags` names, or
    /// milliseconds where it names none.
    ///
    /// EINVAL where `fflags` has two units or any other bit, where `datum` is negative, and where the moment
    /// is over 2^63 - 1 nanoseconds.
    pub fn new(datum: i64, fflags: u32) -> Result<Moment, Errno>
        ensures exact { result ≡ ok_or (named_moment datum fflags) Errno.EINVAL }
        ensures bounded { IfOk result (λ moment. moment ≤ last_moment) }
    {
        let unit = unit_of_flags(fflags).ok_or(Errno::EINVAL)?;
        if datum < 0 {
            return Err(Errno::EINVAL);
        }
        match (datum as u64).checked_mul(unit) {
            Some(nanoseconds) if nanoseconds <= i64::MAX as u64 => Ok(Moment { nanoseconds }),
            _ => Err(Errno::EINVAL),
        }
    }

    /// The nanoseconds from the clock's first moment to this one.
    pub fn nanoseconds(self) -> u64
        ensures exact { result ≡ self }
        ensures bounded { result ≤ last_moment }
    {
        self.nanoseconds
    }

    /// How often a timer that expires at this moment alone does so after `from` and not after `to`.
    pub(crate) fn ticks(self, from: i64, to: i64) -> i64
        requires past { pos 0 ≤ℤ from }
        requires ordered { from ≤ℤ to }
        ensures { result ≡ pos (ticks_between (is_tick (record { start = self; period = 0 }))
            (unsigned_abs from) (unsigned_abs to)) }
    {
        let moment = self.nanoseconds as i64;
        if from < moment && moment <= to { 1 } else { 0 }
    }

    /// This moment, where it is after `from`: the first one at which such a timer expires then.
    pub(crate) fn first_after(self, from: i64) -> Option<i64>
        ensures next { MatchOption result (HasNoTick (is_tick (record { start = self; period = 0 })) from)
            (λ moment. IsNextTick (is_tick (record { start = self; period = 0 })) from (unsigned_abs moment)) }
        ensures not_negative { IfSome result (λ moment. pos 0 ≤ℤ moment) }
    {
        let moment = self.nanoseconds as i64;
        if from < moment { Some(moment) } else { None }
    }
}
