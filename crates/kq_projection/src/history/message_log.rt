//! What the records say to kqueues, taken down record by record as the world goes on.

ghost use Rattle.std.specs.Prelude.{◌≡◌, ◌++◌, length, map, IfOk, OnOk};
ghost use Rattle.std.specs.List.Sorted.{IsStrictlyIncreasing};
ghost use Rattle.kq_model.specs.Items.{clock_whats, Closed, Told};
ghost use Rattle.kq_model.specs.Objects.{counted};
ghost use Rattle.kq_model.specs.World as model;
ghost use Rattle.kq_model.specs.World.{views_of};
ghost use Rattle.kq_process.specs.Effects.{pairs_in};
ghost use Rattle.kq_process.specs.World.{world_of};
ghost use Rattle.kq_projection.specs.Messages.{called_items, said_items, said_whats, AreHeard};
ghost use Rattle.kq_projection.specs.Sayings.{born_of, call_by, clock_of, kqueue_of};

use crate::history::item::{Item, What};
use crate::history::kqueues::Kqueues;
use crate::history::message_index::MessageIndex;
use crate::history::trace_messages::TraceMessages;
use kq_model::{Event, Hint, Memory, Named, Target};
use kq_process::{Effect, World};
use std::alloc::Global;

/// What the records that came say to kqueues.
#[derive(Drop)]
pub struct MessageLog {
    pub(crate) log: Vec<Item>,
    pub(crate) kqueues: Kqueues,
}

/// What is asked before a record: the clock, and which kqueue the record calls.
#[derive(Drop, Clone, Copy)]
pub struct Before {
    pub clock: u64,
    pub kqueue: Option<u64>,
}

impl Before {
    pub fn of(event: &Event, world: &World) -> Self
        ensures clock { result.clock ≡ (world_of world.now).now }
        ensures kqueue { result.kqueue ≡ kqueue_of event.now (world_of world.now) }
    {
        Before {
            clock: world.now() as u64,
            kqueue: called(event, world),
        }
    }
}

/// Which kqueue a record calls, if it is possible.
#[tactic(auto, unfolding(crate::specs::Sayings::kqueue_of, crate::specs::Sayings::kqueue_named))]
pub fn called(event: &Event, world: &World) -> Option<u64>
    ensures { result ≡ kqueue_of event.now (world_of world.now) }
{
    match event {
        Event::Kevent { pid, fd, .. } => match world.descriptor(*pid, *fd) {
            Some(Named::Kqueue(kqueue)) => Some(kqueue),
            _ => None,
        },
        _ => None,
    }
}

impl MessageLog {
    ghost use Rattle.std.specs.Prelude.{[], ℕ};
    ghost use Rattle.kq_projection.specs.Heard.{IsHeard};
    ghost use Rattle.kq_projection.specs.Messages.{AreMessagesOf, IsMessageLog};
    ghost use Rattle.kq_projection.specs.Traced.{Traced};

    /// Of no record.
    pub fn new(alloc: Global) -> Self
        ensures { (version : ℕ) → IsMessageLog (record { version = version; events = [] }) result }
    {
        let log = Vec::new(alloc);
        let kqueues = Kqueues::new(alloc);
        MessageLog { log, kqueues }
    }

    /// What all records said. Its cost is that of what they said. Memory: a growth was refused.
    pub fn end(self) -> Result<TraceMessages, Memory>
        requires { (t : Traced) × IsMessageLog t self }
        ensures { IfOk result (λ said. (t : Traced) → IsMessageLog t self → AreMessagesOf t said) }
    {
        let MessageLog { log, kqueues } = self;
        let log = MessageIndex::of(log)?;
        Ok(TraceMessages { log, kqueues })
    }

    /// What the record of a place says, where it was possible. The world is that after it. After Memory nothing is
    /// known.
    pub fn hear(
        &mut self,
        place: u64,
        event: &Event,
        effect: &Effect,
        before: Before,
        world: &World,
    ) -> Result<(), Memory>
        requires rising { IsStrictlyIncreasing self.old.kqueues.places.items }
        requires one_each { length self.old.kqueues.concerned.items ≡ length self.old.kqueues.places.items }
        ensures { OnOk result ((old : model.World counted) → before.clock ≡ old.now
            → before.kqueue ≡ kqueue_of event.now old
            → IsHeard place event.now effect.now old (world_of world.now) self.old self.new) }
    {
        match effect.verdict {
            Err(_) => Ok(()),
            Ok(()) => self.hear_record(place, event, effect, before, world),
        }
    }

    /// What a possible record says.
    fn hear_record(
        &mut self,
        place: u64,
        event: &Event,
        effect: &Effect,
        before: Before,
        world: &World,
    ) -> Result<(), Memory>
        requires rising { IsStrictlyIncreasing self.old.kqueues.places.items }
        requires one_each { length self.old.kqueues.concerned.items ≡ length self.old.kqueues.places.items }
        ensures items { OnOk result (self.new.log.items ≡ self.old.log.items
            ++ said_items place effect.now.closed effect.now.hints (clock_of event.now before.clock) before.kqueue) }
        ensures kqueues { OnOk result (AreHeard place (born_of event.now) (call_by event.now before.kqueue)
            (views_of (world_of world.now)) self.old.kqueues self.new.kqueues) }
    {
        let log = &mut self.log;
        push_closed(log, place, effect.closed.as_slice())?;
        push_told(log, place, effect.hints.as_slice())?;
        push_clock(log, place, event, before.clock)?;
        push_call(log, place, before.kqueue)?;
        hear_kqueue(&mut self.kqueues, place, event, before.kqueue, world)
    }
}

fn push_closed(log: &mut Vec<Item>, place: u64, closed: &[(u32, u32)]) -> Result<(), Memory>
    ensures { OnOk result (log.new.items
        ≡ log.old.items ++ said_whats place (map Closed (pairs_in closed.now))) }
{
    for pair in closed {
        let what = What::Closed {
            pid: pair.0,
            number: pair.1,
        };
        log.push(Item { place, what })?;
    }
    Ok(())
}

fn push_told(log: &mut Vec<Item>, place: u64, hints: &[(Target, Hint)]) -> Result<(), Memory>
    ensures { OnOk result (log.new.items
        ≡ log.old.items ++ said_whats place (map Told hints.now)) }
{
    for told in hints {
        let what = What::Told {
            target: told.0,
            hint: told.1,
        };
        log.push(Item { place, what })?;
    }
    Ok(())
}

#[tactic(auto, unfolding(crate::proofs::Unfolded::clocking))]
fn push_clock(log: &mut Vec<Item>, place: u64, event: &Event, from: u64) -> Result<(), Memory>
    ensures { OnOk result (log.new.items
        ≡ log.old.items ++ said_whats place (clock_whats (clock_of event.now from))) }
{
    match event {
        Event::Clock { ns } => {
            if *ns < 0 {
                return Ok(());
            }
            let what = What::Clocked {
                from,
                to: *ns as u64,
            };
            Ok(log.push(Item { place, what })?)
        }
        _ => Ok(()),
    }
}

fn push_call(log: &mut Vec<Item>, place: u64, kqueue: Option<u64>) -> Result<(), Memory>
    ensures { OnOk result (log.new.items ≡ log.old.items ++ called_items place kqueue) }
{
    match kqueue {
        None => Ok(()),
        Some(kqueue) => {
            let what = What::Called { kqueue };
            Ok(log.push(Item { place, what })?)
        }
    }
}

/// The birth or the call of a kqueue by a possible record. The world is that after it. After Memory nothing is known.
#[tactic(auto, unfolding(crate::specs::Sayings::born_of, crate::specs::Sayings::call_by))]
fn hear_kqueue(
    kqueues: &mut Kqueues,
    place: u64,
    event: &Event,
    kqueue: Option<u64>,
    world: &World,
) -> Result<(), Memory>
    requires rising { IsStrictlyIncreasing kqueues.old.places.items }
    requires one_each { length kqueues.old.concerned.items ≡ length kqueues.old.places.items }
    ensures { OnOk result (AreHeard place (born_of event.now) (call_by event.now kqueue)
        (views_of (world_of world.now)) kqueues.old kqueues.new) }
{
    match event {
        Event::Kqueue { pid, .. } => kqueues.bear(place, *pid),
        Event::Kevent { changes, .. } => match kqueue {
            None => Ok(()),
            Some(kqueue) => kqueues.call(kqueue, changes.as_slice(), world),
        },
        _ => Ok(()),
    }
}
