//! The time between two expirations, and the units in which a kevent gives times.

ghost use Rattle.std.specs.Prelude.{◌≡◌, ◌<◌, ◌≤◌, IfOk};
ghost use Rattle.std.specs.Option.{ok_or};
ghost use Rattle.kq_model.specs.Ticks.{last_moment, unit_of, period_of};

use kq_model::Errno;
use std::marker::Model;

/// The bits of a timer's fflags, with the values of this project; see kqueue(2), EVFILT_TIMER.
const SECONDS: u32 = 1;

const MILLISECONDS: u32 = 2;

const MICROSECONDS: u32 = 4;

const NANOSECONDS: u32 = 8;

/// The time between two expirations of a timer, from 1 to 2^63 - 1 nanoseconds. Contracts see the
/// number of nanoseconds.
#[derive(Debug, Drop, Clone, Copy, PartialEq, Eq)]
pub struct Period {
    nanoseconds: u64,
}

impl Model for Period {
    ghost use Rattle.std.specs.Prelude.{ℕ, ◌<◌, ◌≤◌};
    ghost use Rattle.kq_model.specs.Ticks.{last_moment};

    ghost Value = { ℕ };

    ghost view = { λ p. p.nanoseconds };

    ghost invariant = { λ p. (0 < p.nanoseconds) × (p.nanoseconds ≤ last_moment) };

    ghost inverse = { λ n. record { nanoseconds = n } };
}

impl Period {
    /// The period of a timer with these parameters of a kevent, as kqueue(2) has it for
    /// EVFILT_TIMER: `datum` units, at least one, of the unit that `fflags` names, or milliseconds
    /// where it names none.
    ///
    /// EINVAL where `fflags` has two units or any other bit, where `datum` is negative, and where
    /// the period is over 2^63 - 1 nanoseconds. These refusals, and that 0 counts as 1, are this
    /// project's choice.
    pub fn new(datum: i64, fflags: u32) -> Result<Period, Errno>
        ensures exact { result ≡ ok_or (period_of datum fflags) Errno.EINVAL }
        ensures positive { IfOk result (λ period. 0 < period) }
        ensures bounded { IfOk result (λ period. period ≤ last_moment) }
    {
        let unit = unit_of_flags(fflags).ok_or(Errno::EINVAL)?;
        if datum < 0 {
            return Err(Errno::EINVAL);
        }
        let amount = (datum as u64).max(1);
        match amount.checked_mul(unit) {
            Some(nanoseconds) if nanoseconds <= i64::MAX as u64 => Ok(Period { nanoseconds }),
            _ => Err(Errno::EINVAL),
        }
    }

    /// The nanoseconds of the period.
    pub fn nanoseconds(self) -> u64
        ensures exact { result ≡ self }
        ensures positive { 0 < result }
        ensures bounded { result ≤ last_moment }
    {
        self.nanoseconds
    }
}

/// The nanoseconds of the unit that a timer's fflags name.
pub(crate) fn unit_of_flags(fflags: u32) -> Option<u64>
    ensures { result ≡ unit_of fflags }
{
    match fflags {
        0 | MILLISECONDS => Some(1_000_000),
        SECONDS => Some(1_000_000_000),
        MICROSECONDS => Some(1_000),
        NANOSECONDS => Some(1),
        _ => None,
    }
}
