//! A timer in the three fields that a knote keeps: its start, its period, and if it expires once.

ghost use Rattle.std.specs.Prelude.{◌≡◌, ◌≤◌, ◌+◌};
ghost use Rattle.kq_model.specs.Ticks.{expires, is_single_moment, last_moment};
ghost use Rattle.kq_model.specs.NextTicks.{next_tick, ticks_between};
ghost use Rattle.kq_timer.specs.Once.{once_after};

/// The last moment of the clock.
const LAST_MOMENT: u64 = i64::MAX as u64;

/// A timer as a knote keeps it: it expires at start + k times the period for each k from 1, or once
/// only, at the first of these (kqueue(2), EVFILT_TIMER and EV_ONESHOT). Without a period it expires
/// once, at its start.
#[derive(Debug, Drop, Clone, Copy, PartialEq, Eq)]
pub struct Timer {
    /// In nanoseconds from the clock's first moment.
    pub start: u64,
    /// In nanoseconds.
    pub period: u64,
    /// It expires once only.
    pub once: bool,
}

impl Timer {
    /// The moment after the last of the clock: the next one of a timer that does not expire any more.
    pub const NEVER: u64 = LAST_MOMENT + 1;

    /// Whether it expires at its start alone, since it has no period.
    pub fn is_single_moment(self) -> bool
        ensures { result ≡ is_single_moment (record { start = self.start; period = self.period }) }
    {
        self.period == 0
    }

    /// How often it expires after the moment `from` and not after `to`; `from` may be before its
    /// start.
    pub fn ticks(self, from: u64, to: u64) -> u64
        requires ordered { from ≤ to }
        requires within { to ≤ last_moment }
        ensures { result
            ≡ ticks_between (expires self.once (record { start = self.start; period = self.period })) from to }
    {
        if self.once || self.is_single_moment() {
            return u64::from(self.single(from) <= to);
        }
        to.saturating_sub(self.start) / self.period - from.saturating_sub(self.start) / self.period
    }

    /// The moment of its first expiration after `from`, up to the last moment of the clock, or else
    /// `NEVER`.
    pub fn next_after(self, from: u64) -> u64
        requires { from ≤ last_moment }
        ensures { result
            ≡ next_tick (expires self.once (record { start = self.start; period = self.period })) from }
    {
        if self.once || self.is_single_moment() {
            return self.single(from);
        }
        let later = from.max(self.start);
        match (later - (later - self.start) % self.period).checked_add(self.period) {
            Some(moment) if moment <= LAST_MOMENT => moment,
            _ => Timer::NEVER,
        }
    }

    /// The moment at which a timer expires that does so once, where it is after `from` and up to the
    /// last moment of the clock, or else `NEVER`.
    fn single(self, from: u64) -> u64
        ensures { result ≡ once_after (self.start + self.period) from }
    {
        match self.start.checked_add(self.period) {
            Some(moment) if from < moment && moment <= LAST_MOMENT => moment,
            _ => Timer::NEVER,
        }
    }
}
