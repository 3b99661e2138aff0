//! One live kqueue under its number, and what a record or a step of the clock does to it.

ghost use Rattle.std.specs.Prelude.{◌≡◌, ◌≤◌, ◌==◌, ◌&&◌, ◌∷◌, [], Some, not, true};
ghost use Rattle.kq_model.specs.Clock.{clocked};
ghost use Rattle.kq_model.specs.Close.{closed, has_pair};
ghost use Rattle.kq_model.specs.Following.{all_forks};
ghost use Rattle.kq_model.specs.Hints.{notified};
ghost use Rattle.kq_model.specs.Ticks.{last_moment};
ghost use Rattle.kq_process.specs.Effects.{pair_of, pairs_in};
ghost use Rattle.kq_system.specs.Showing.{IsPassed, IsRung, IsTold};

use kq_kevent::Kq;
use kq_model::{Hint, Target, Views};
use std::marker::Model;

/// A live kqueue and the number under which its process opened it.
#[derive(Drop)]
pub struct Live {
    pub number: u32,
    /// Its number was closed in the round in which it was shown a record last.
    pub ended: bool,
    /// The round in which it was shown a record last.
    pub shown: u64,
    pub kq: Kq,
}

impl Model for Live {
    ghost use Rattle.kq_system.specs.SystemState.{NumberedKqueue};

    ghost Value = { NumberedKqueue };

    ghost view = { λ l. record { number = l.number; kq = l.kq; shown = l.shown; ended = l.ended } };
}

impl Live {
    /// A record that does not call this kqueue: whether it goes on, which it does unless its own number
    /// was closed. The knotes of the numbers that were closed in its process are gone, and then the others
    /// hear the hints.
    #[inline(always)]
    pub fn happen<V: Views>(
        &mut self,
        pairs: &[(u32, u32)],
        hints: &[(Target, Hint)],
        views: &V,
    ) -> bool
        requires { all_forks hints.now ≡ [] }
        ensures goes_on { result ≡ not (has_pair self.old.kq.owner self.old.number (pairs_in pairs.now)) }
        ensures kq { result ≡ true → self.new.kq.kq ≡ notified (V.sees views.now) hints.now
            (closed self.old.kq.owner (pairs_in pairs.now) self.old.kq.kq) }
        ensures number { self.new.number ≡ self.old.number }
        ensures owner { self.new.kq.owner ≡ self.old.kq.owner }
        ensures version { self.new.kq.version ≡ self.old.kq.version }
        ensures shown { self.new.shown ≡ self.old.shown }
        ensures ended { self.new.ended ≡ self.old.ended }
    {
        if is_closed(self.kq.owner(), self.number, pairs) {
            return false;
        }
        close(&mut self.kq, pairs);
        self.kq.notify(hints, views);
        true
    }

    /// Shows this kqueue a record that does not call it, where it was not shown it in this round: whether the
    /// kqueue ended in it, which is kept.
    #[inline(always)]
    pub fn show<V: Views>(
        &mut self,
        round: u64,
        pairs: &[(u32, u32)],
        hints: &[(Target, Hint)],
        views: &V,
    ) -> bool
        requires { all_forks hints.now ≡ [] }
        ensures passed { IsPassed round (IsTold (pairs_in pairs.now) hints.now (V.sees views.now)) self.old self.new }
        ensures seen { self.new.shown ≡ round }
        ensures ended { result ≡ self.new.ended }
    {
        if self.shown == round {
            return self.ended;
        }
        let goes_on = self.happen(pairs, hints, views);
        self.shown = round;
        self.ended = !goes_on;
        self.ended
    }
}

impl Live {
    /// The clock goes on from one moment to another, in nanoseconds; the kqueue stays.
    pub fn tick(&mut self, from: u64, to: u64) -> bool
        requires ordered { from ≤ to }
        requires within { to ≤ last_moment }
        ensures stays { result ≡ true }
        ensures kq { self.new.kq.kq ≡ clocked (Some (record { from = from; to = to })) self.old.kq.kq }
        ensures number { self.new.number ≡ self.old.number }
        ensures owner { self.new.kq.owner ≡ self.old.kq.owner }
        ensures version { self.new.kq.version ≡ self.old.kq.version }
        ensures shown { self.new.shown ≡ self.old.shown }
        ensures ended { self.new.ended ≡ self.old.ended }
    {
        go_on(&mut self.kq, from, to);
        true
    }

    /// The clock goes on from one moment to another, where the kqueue was not told of it in this round.
    pub fn ring(&mut self, round: u64, from: u64, to: u64)
        requires ordered { from ≤ to }
        requires within { to ≤ last_moment }
        ensures passed { IsPassed round (IsRung (record { from = from; to = to })) self.old self.new }
        ensures seen { self.new.shown ≡ round }
        ensures ended { self.new.ended ≡ self.old.ended }
    {
        if self.shown == round {
            return;
        }
        go_on(&mut self.kq, from, to);
        self.shown = round;
    }
}

/// The clock of a kqueue goes on.
fn go_on(kq: &mut Kq, from: u64, to: u64)
    requires ordered { from ≤ to }
    requires within { to ≤ last_moment }
    ensures kq { kq.new.kq ≡ clocked (Some (record { from = from; to = to })) kq.old.kq }
    ensures owner { kq.new.owner ≡ kq.old.owner }
    ensures version { kq.new.version ≡ kq.old.version }
{
    kq.clock(from as i64, to as i64);
}

/// Whether a number of a process is among these.
fn is_closed(pid: u32, number: u32, pairs: &[(u32, u32)]) -> bool
    ensures { result ≡ has_pair pid number (pairs_in pairs.now) }
{
    for pair in pairs {
        if is_pair(*pair, pid, number) {
            return true;
        }
    }
    false
}

fn is_pair(pair: (u32, u32), pid: u32, number: u32) -> bool
    ensures { result ≡ ((pair.0 == pid) && (pair.1 == number)) }
{
    pair.0 == pid && pair.1 == number
}

/// These numbers, each of its process, were closed.
#[inline(always)]
fn close(kq: &mut Kq, pairs: &[(u32, u32)])
    ensures kq { kq.new.kq ≡ closed kq.old.owner (pairs_in pairs.now) kq.old.kq }
    ensures owner { kq.new.owner ≡ kq.old.owner }
    ensures version { kq.new.version ≡ kq.old.version }
{
    for pair in pairs {
        close_one(kq, *pair);
    }
}

fn close_one(kq: &mut Kq, pair: (u32, u32))
    ensures kq { kq.new.kq ≡ closed kq.old.owner (pair_of pair ∷ []) kq.old.kq }
    ensures owner { kq.new.owner ≡ kq.old.owner }
    ensures version { kq.new.version ≡ kq.old.version }
{
    if pair.0 == kq.owner() {
        kq.closed(pair.1);
    }
}
