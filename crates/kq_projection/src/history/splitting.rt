//! The pass of the world over the records of a trace, which makes its split.

ghost use Rattle.std.specs.Prelude.{◌≡◌, ◌+◌, ◌<◌, ◌^◌, ◌++◌, [], ℕ, length, IfOk, OnOk};
ghost use Rattle.kq_projection.specs.Splitting.{AreSoMany, IsSplitSoFar};
ghost use Rattle.kq_projection.specs.Traced.{longer, traced, Traced};

use crate::history::message_log::{Before, MessageLog};
use crate::history::plain::put_plain;
use crate::history::seen::Seen;
use crate::history::split::Split;
use crate::history::touched::Touched;
use crate::history::tracking::track;
use kq_model::{Event, Memory, Row, Trace, Version};
use kq_process::{Effect, World};
use std::alloc::Global;

/// A split of the records that came so far.
#[derive(Drop)]
pub struct Splitting {
    pub(crate) world: World,
    pub(crate) seen: Seen,
    pub(crate) said: MessageLog,
    pub(crate) plain: Vec<Row>,
    touched: Touched,
    /// What the last record did: its lists serve the next one.
    effect: Effect,
}

impl Splitting {
    /// Of no record. Memory: a growth was refused.
    pub fn new(alloc: Global) -> Result<Self, Memory>
        ensures { IfOk result (λ s. (version : ℕ) → IsSplitSoFar (record { version = version; events = [] }) s) }
    {
        let world = World::new(alloc)?;
        let seen = Seen::new(alloc);
        let said = MessageLog::new(alloc);
        let plain = Vec::new(alloc);
        let touched = Touched::new(alloc);
        Ok(Splitting {
            world,
            seen,
            said,
            plain,
            touched,
            effect: Effect::new(alloc),
        })
    }

    /// The records that follow those so far, which are so many: the world takes each of them. Its cost
    /// is theirs. After Memory nothing is known, and the splitting is to be dropped.
    pub fn take(&mut self, before: u64, events: &[Event]) -> Result<(), Memory>
        requires few { before + length events.now < 2 ^ 31 }
        requires before { AreSoMany before self.old }
        ensures { OnOk result ((t : Traced) → length t.events ≡ before → IsSplitSoFar t self.old
            → IsSplitSoFar (record { version = t.version; events = t.events ++ events.now }) self.new) }
    {
        for (taken, event) in events.iter().enumerate() {
            self.take_one(before + taken as u64 + 1, event)?;
        }
        Ok(())
    }

    /// The record of the next place: the world takes it. After Memory nothing is known.
    fn take_one(&mut self, place: u64, event: &Event) -> Result<(), Memory>
        requires { (t : Traced) × (length t.events + 1 ≡ place) × IsSplitSoFar t self.old }
        ensures { OnOk result ((t : Traced) → length t.events + 1 ≡ place → IsSplitSoFar t self.old
            → IsSplitSoFar (longer t event.now) self.new) }
    {
        let before_it = Before::of(event, &self.world);
        let world = &mut self.world;
        let effect = &mut self.effect;
        track(
            place,
            event,
            world,
            &mut self.seen,
            &mut self.touched,
            effect,
        )?;
        let said = &mut self.said;
        said.hear(place, event, &self.effect, before_it, &self.world)?;
        put_plain(&mut self.plain, place, &self.effect.verdict)
    }

    /// The split of a trace all of whose records came. Its cost is that of what was said, and of dropping the world.
    /// Memory: a growth was refused.
    pub fn end<'a>(self, trace: &'a Trace) -> Result<Split<'a>, Memory>
        requires { IsSplitSoFar (traced trace.now) self }
        ensures { IfOk result (λ s. s ≡ traced trace.now) }
    {
        let events = trace.events.as_slice();
        let Splitting {
            seen,
            said,
            plain,
            ..
        } = self;
        let said = said.end()?;
        let version = Version::new(trace.version);
        Ok(Split {
            version,
            events,
            seen,
            said,
            plain,
        })
    }
}
