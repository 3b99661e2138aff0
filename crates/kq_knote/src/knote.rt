//! One knote with each thing that is kept of it, as a row of a table.

ghost use Rattle.std.specs.Prelude.{◌≡◌, Some};
ghost use Rattle.kq_model.specs.Knote.{has_nothing};
ghost use Rattle.kq_model.specs.Kqueue.{is_waiting};

use crate::Tally;
use crate::hinted::is_shared;
use kq_model::{Key, Target};
use kq_table::{Keyed, number_of};
use std::marker::Model;

/// What a kqueue keeps of one registered kevent (kqueue(2)).
// Fields lie in memory in the order of the source, and there may be many knotes: what each look reads stands first.
#[derive(Debug, Drop, Clone, Copy)]
pub struct Knote {
    /// Which knote of its kqueue it is.
    pub key: Key,
    /// What is watched; none where the change named nothing that is there.
    pub target: Option<Target>,
    /// The filter's own number, of the last change that set it.
    pub datum: i64,
    /// The caller's own, of the last change.
    pub udata: u64,
    /// The filter's own flags, of the last change that set them.
    pub fflags: u32,
    /// Of a process that is followed from its parent: that one's pid, until this was told.
    pub notice: Option<u32>,
    /// Of a user event: triggered since it was reset.
    pub triggered: bool,
    /// Deleted when it is retrieved.
    pub oneshot: bool,
    /// Reset when it is retrieved.
    pub clear: bool,
    /// Disabled when it is retrieved.
    pub dispatch: bool,
    /// May be returned.
    pub enabled: bool,
    /// Its condition was seen to hold, and nothing has taken that back.
    pub active: bool,
    /// Of a user event, its low 24 bits.
    pub bits: u32,
    /// What was heard since the last reset.
    pub tally: Tally,
    /// Of a timer, the moment at which it was started, in nanoseconds.
    pub start: u64,
    /// Of a timer, in nanoseconds.
    pub period: u64,
}

impl Model for Knote {
    ghost use Rattle.kq_model.specs.Tallied as tallied;

    ghost Value = { tallied.Knote };

    ghost view = { λ k. record {
      key = k.key;
      target = k.target;
      fflags = k.fflags;
      datum = k.datum;
      udata = k.udata;
      oneshot = k.oneshot;
      clear = k.clear;
      dispatch = k.dispatch;
      enabled = k.enabled;
      active = k.active;
      seen = k.tally;
      start = k.start;
      period = k.period;
      bits = k.bits;
      triggered = k.triggered;
      notice = k.notice;
    } };

    ghost inverse = { λ k. record {
      key = k.key;
      target = k.target;
      fflags = k.fflags;
      datum = k.datum;
      udata = k.udata;
      oneshot = k.oneshot;
      clear = k.clear;
      dispatch = k.dispatch;
      enabled = k.enabled;
      active = k.active;
      tally = k.seen;
      start = k.start;
      period = k.period;
      bits = k.bits;
      triggered = k.triggered;
      notice = k.notice;
    } };
}

/// At most one knote of a kqueue has a key; of the targets, those are shared for which records give hints.
impl Keyed for Knote {
    ghost use Rattle.std.proofs.Common.{rules};
    ghost use Rattle.kq_knote.specs.Index.{shared_of};
    ghost use Rattle.kq_table.specs.OneKey.{one_key_by};

    type Key = Key;

    type Target = Target;

    ghost key_of = { λ k. k.key };

    ghost target_of = { λ k. shared_of k };

    ghost one_key = { one_key_by _ (λ a b. Prim.search rules) };

    fn key(&self) -> Key {
        self.key
    }

    fn target(&self) -> Option<Target> {
        if is_shared(self.target) {
            self.target
        } else {
            None
        }
    }

    fn number_of_key(key: Key) -> usize {
        number_of(key)
    }

    fn number_of_target(target: Target) -> usize {
        match target {
            Target::Socket(place) | Target::Pipe(place) | Target::Open(place) => place as usize,
            Target::File(number) => number as usize,
            Target::Process(pid) => pid as usize,
            Target::Signal { pid, signal } => (pid as usize)
                .wrapping_mul(32)
                .wrapping_add(signal as usize),
            Target::Own => 0,
        }
    }
}

impl Knote {
    /// Whether it has nothing to tell: it has no notice, and heard nothing that tells anything.
    pub fn has_nothing(&self) -> bool
        ensures { result ≡ has_nothing self.now }
    {
        self.notice.is_none() && self.tally.is_empty()
    }

    /// Whether it stands in the queue: active and enabled.
    #[tactic(auto, unfolding(kq_model::specs::Kqueue::is_waiting))]
    pub fn is_waiting(&self) -> bool
        ensures { result ≡ is_waiting (Some self.now) }
    {
        self.active && self.enabled
    }
}
