//! What a kevent of EVFILT_TIMER asks for: a period, or by NOTE_ABSTIME a moment.

ghost use Rattle.std.specs.Prelude.{◌≡◌, IfErr, IfOk, None, Some};
ghost use Rattle.std.specs.Option.{ok_or, option_map};
ghost use Rattle.kq_model.specs.ChangedKnote.{start_in, period_in, has_come};
ghost use Rattle.kq_model.specs.Ticks.{is_absolute, timing_of};
ghost use Rattle.kq_timer.specs.Timings.{coded, timing};

use crate::{Moment, Period};
use kq_model::notes::NOTE_ABSTIME;
use kq_model::{Errno, Version};

/// What a timer is to do (kqueue(2), EVFILT_TIMER and NOTE_ABSTIME).
#[derive(Debug, Drop, Clone, Copy, PartialEq, Eq)]
pub enum Timing {
    /// To expire one period after the other from its start on.
    Every(Period),
    /// To expire once, at this moment.
    At(Moment),
}

impl Timing {
    /// What the parameters of a kevent say, by the rules of a version of the trace format: from version 2 on
    /// NOTE_ABSTIME makes `datum` a moment, in the unit that the other bits name, or in milliseconds. Else it
    /// is a period.
    ///
    /// EINVAL where two units or any other bit are named, where `datum` is negative, and where the period or
    /// the moment is over 2^63 - 1 nanoseconds.
    pub fn new(version: Version, datum: i64, fflags: u32) -> Result<Timing, Errno>
        ensures exact { result ≡ ok_or (option_map coded (timing_of version datum fflags)) Errno.EINVAL }
        // The same as users of a timing want it.
        ensures said { IfOk result (λ t. Some (timing t) ≡ timing_of version datum fflags) }
        ensures refused { IfErr result (λ _. None ≡ timing_of version datum fflags) }
    {
        if is_absolute(version, fflags) {
            let moment = Moment::new(datum, fflags.saturating_sub(NOTE_ABSTIME))?;
            return Ok(Timing::At(moment));
        }
        let period = Period::new(datum, fflags)?;
        Ok(Timing::Every(period))
    }
}

/// How a timer starts that is to do this.
impl Timing {
    /// Where it begins that is set at the moment `now`: there, or at its own moment, in nanoseconds.
    #[tactic(auto, unfolding(kq_model::specs::ChangedKnote::start_in))]
    pub fn start(&self, now: u64) -> u64
        ensures { result ≡ start_in now (Some (timing self.now)) }
    {
        match *self {
            Timing::Every(_) => now,
            Timing::At(moment) => moment.nanoseconds(),
        }
    }

    /// Its period in nanoseconds, or 0 where it has none.
    #[tactic(auto, unfolding(kq_model::specs::ChangedKnote::period_in))]
    pub fn period(&self) -> u64
        ensures { result ≡ period_in (Some (timing self.now)) }
    {
        match *self {
            Timing::Every(period) => period.nanoseconds(),
            Timing::At(_) => 0,
        }
    }

    /// Whether its moment is not after the moment `now`.
    #[tactic(auto, unfolding(kq_model::specs::ChangedKnote::has_come))]
    pub fn has_come(&self, now: u64) -> bool
        ensures { result ≡ has_come now (Some (timing self.now)) }
    {
        match *self {
            Timing::Every(_) => false,
            Timing::At(moment) => moment.nanoseconds() <= now,
        }
    }
}

/// Whether the data of a timer is a moment, by the rules of this version of the trace format.
fn is_absolute(version: Version, fflags: u32) -> bool
    ensures { result ≡ is_absolute version fflags }
{
    version.number() != 1 && fflags & NOTE_ABSTIME == NOTE_ABSTIME
}
