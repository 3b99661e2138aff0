//! A knote as a timer: when it expires, and what its expirations do to it.

ghost use Rattle.std.specs.Prelude.{◌≡◌, ◌≤◌, true};
ghost use Rattle.kq_model.specs.Clock.{expires_at, timers};
ghost use Rattle.kq_model.specs.Knote.{is_timer};
ghost use Rattle.kq_model.specs.Ticks.{last_moment};
ghost use Rattle.kq_model.specs.NextTicks.{next_tick, ticks_between};
ghost use Rattle.kq_model.specs.WalkedAtOnce.{rung_times};

use crate::Knote;
use kq_model::Filter;
use kq_timer::Timer;

#[tactic(auto, unfolding(kq_model::specs::Knote::is_timer))]
fn is_timer(filter: Filter) -> bool
    ensures { result ≡ is_timer filter }
{
    matches!(filter, Filter::Timer)
}

impl Knote {
    /// Its start, its period, and whether it expires once only.
    fn timer(&self) -> Timer
        ensures { result ≡ record { start = self.now.start; period = self.now.period; once = self.now.oneshot } }
    {
        Timer {
            start: self.start,
            period: self.period,
            once: self.oneshot,
        }
    }

    /// The moment at which it expires first after `from`, up to the last moment of the clock, or else
    /// the one after that; only a timer expires.
    pub fn first_after(&self, from: u64) -> u64
        requires { from ≤ last_moment }
        ensures { result ≡ next_tick (expires_at self.now) from }
    {
        if is_timer(self.key.filter) {
            self.timer().next_after(from)
        } else {
            Timer::NEVER
        }
    }

    /// Whether it has the start, the period and the kind of another knote. If both are of one key, they expire at the
    /// same moments then.
    #[tactic(auto, using(crate::proofs::TimerLaws::same_expirations))]
    pub(crate) fn rings_with(&self, other: &Knote) -> bool
        ensures { result ≡ true → self.now.key ≡ other.now.key → expires_at self.now ≡ expires_at other.now }
    {
        self.start == other.start && self.period == other.period && self.oneshot == other.oneshot
    }

    /// How often it expires after `from` and not after `to`.
    fn ticks(&self, from: u64, to: u64) -> u64
        requires ordered { from ≤ to }
        requires within { to ≤ last_moment }
        ensures { result ≡ ticks_between (expires_at self.now) from to }
    {
        if is_timer(self.key.filter) {
            self.timer().ticks(from, to)
        } else {
            0
        }
    }

    /// It gets an expiration for each time that it expires after `from` and not after `to`; where
    /// there is one, it is active.
    pub fn ring(&mut self, from: u64, to: u64)
        requires ordered { from ≤ to }
        requires within { to ≤ last_moment }
        ensures { self.new ≡ rung_times timers (ticks_between (expires_at self.old) from to) self.old }
    {
        let times = self.ticks(from, to);
        if times == 0 {
            return;
        }
        self.tally.expire(times);
        self.active = true;
    }
}
