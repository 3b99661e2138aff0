//! The world, which one record after the other changes, and what is seen of it.

ghost use Rattle.std.specs.Prelude.{◌≡◌, ◌+◌, ◌<◌, ℕ, All, IfOk, OnOk, OnErr, pos, true};
ghost use Rattle.kq_model.specs.CountedWorld.{IsCountedWorld, IsOwned, NamesBelow};
ghost use Rattle.kq_model.specs.DescriptorPlans.{plan_kevent};
ghost use Rattle.kq_model.specs.Descriptors.{IsRising};
ghost use Rattle.kq_model.specs.ListedFiles.{AreListed};
ghost use Rattle.kq_model.specs.Objects.{counted, listed};
ghost use Rattle.kq_model.specs.Plans.{plan};
ghost use Rattle.kq_model.specs.ProcessPlans.{descriptors_of, plan_fork};
ghost use Rattle.kq_model.specs.Processes.{is_live};
ghost use Rattle.kq_model.specs.World.{empty_world, named_by, seen_world, view_in, World as Kept};
ghost use Rattle.kq_process.specs.Ordered.{IsRising-prop};
ghost use Rattle.kq_process.specs.Processes.{descriptors_in};
ghost use Rattle.kq_process.specs.Slots.{filled};
ghost use Rattle.kq_process.specs.State.{state_of};

use crate::effect::Effect;
use crate::state::State;
use kq_model::{Change, Event, Memory, Named, Target, View};
use std::alloc::Global;

/// The processes, their descriptors, the objects that these name, and the clock, after the records
/// so far. Contracts see it by `world_of`, and the place of the last record by `last_of`.
#[derive(Drop)]
pub struct World {
    state: State,
    /// The place of the last record, 0 before the first.
    last: u64,
    ghost rising: { IsRising (state_of state).table } by { IsRising-prop (state_of state).table },
    ghost owned: { All (IsOwned (state_of state).processes) (state_of state).table },
    // All that is named was made by the records up to the last one.
    ghost below: { All (NamesBelow (last + 1)) (state_of state).table },
    // Each file lists its open descriptions and no other, in the rising order of their places.
    ghost lists: { AreListed (state_of state).objects },
}

impl World {
    ghost use Rattle.kq_process.specs.Effects.{IsPossible, listed_after};
    ghost use Rattle.kq_process.specs.World.{world_of, last_of, IsEffectBy, IsNext};

    /// The world before the first record.
    pub fn new(alloc: Global) -> Result<Self, Memory>
        ensures world { IfOk result (λ w. world_of w ≡ empty_world counted) }
        ensures last { IfOk result (λ w. last_of w ≡ 0) }
    {
        let state = State::new(alloc)?;
        Ok(World { state, last: 0 })
    }

    /// The step of the world: what the record at this place does, or the first reason why it is
    /// impossible; then it changes nothing. Places rise, so a file lists its open descriptions in the rising order of
    /// the places at which they were opened. After Memory nothing has changed.
    pub fn apply(&mut self, place: u64, event: &Event) -> Result<Effect, Memory>
        requires { last_of self.old < place }
        ensures effect { IfOk result (IsEffectBy (plan place event.now) self.old) }
        ensures world { OnOk result (IsNext place (plan place event.now) self.old self.new) }
        ensures last { OnOk result (last_of self.new ≡ place) }
        ensures memory { OnErr result (world_of self.new ≡ world_of self.old) }
        ensures same_last { OnErr result (last_of self.new ≡ last_of self.old) }
        // An impossible record is answered, whatever memory there is.
        ensures possible { OnErr result (IsPossible (plan place event.now (world_of self.old))) }
        // All that is named was made at this place or before. Each file lists its open descriptions and no
        // other, in the order of their birth.
        ensures next { OnOk result (IsCountedWorld (place + 1) (world_of self.new)) }
        ensures lists { OnOk result (AreListed (world_of self.new).objects) }
        // The same for the world that keeps each object's records, for which this one stands.
        ensures listed { (m : Kept listed) → world_of self.old ≡ seen_world m
            → OnOk result (world_of self.new
            ≡ seen_world (listed_after place (plan place event.now (seen_world m)) m)) }
    {
        let mut effect = Effect::new(self.state.processes.allocator());
        self.apply_into(place, event, &mut effect)?;
        Ok(effect)
    }

    /// Takes the step of the world as [`World::apply`] does, over an effect that was given, so that its lists serve
    /// again. After Memory nothing is known of the effect.
    pub fn apply_into(
        &mut self,
        place: u64,
        event: &Event,
        effect: &mut Effect,
    ) -> Result<(), Memory>
        requires { last_of self.old < place }
        ensures effect { OnOk result (IsEffectBy (plan place event.now) self.old effect.new) }
        ensures world { OnOk result (IsNext place (plan place event.now) self.old self.new) }
        ensures last { OnOk result (last_of self.new ≡ place) }
        ensures memory { OnErr result (world_of self.new ≡ world_of self.old) }
        ensures same_last { OnErr result (last_of self.new ≡ last_of self.old) }
        ensures possible { OnErr result (IsPossible (plan place event.now (world_of self.old))) }
        ensures next { OnOk result (IsCountedWorld (place + 1) (world_of self.new)) }
        ensures lists { OnOk result (AreListed (world_of self.new).objects) }
        ensures listed { (m : Kept listed) → world_of self.old ≡ seen_world m
            → OnOk result (world_of self.new
            ≡ seen_world (listed_after place (plan place event.now (seen_world m)) m)) }
    {
        self.state.apply(place, event, effect)?;
        self.last = place;
        Ok(())
    }

    /// A kevent call: whether it is possible. It changes nothing here, and its kqueue is what
    /// `descriptor` gives. NoProcess; NoDescriptor: the number is not open; WrongKind: it names no
    /// kqueue; TooMany: more than 1,024 changes, or room for more than 65,536 events.
    pub fn kevent(&self, pid: u32, fd: u32, changes: &[Change], room: u32) -> Effect
        ensures effect { IsEffectBy (plan_kevent pid fd changes.now room) self.now result }
        ensures world { (place : ℕ) → IsNext place (plan_kevent pid fd changes.now room) self.now self.now }
    {
        let mut effect = Effect::new(self.state.processes.allocator());
        self.state.kevent(pid, fd, changes, room, &mut effect);
        effect
    }

    /// Whether a fork of this child is possible: the process is live, and the child's pid was not used.
    #[tactic(auto, unfolding(kq_model::specs::ProcessPlans::plan_fork))]
    pub fn can_fork(&self, pid: u32, child: u32) -> bool
        ensures forks { IsPossible (plan_fork pid child (world_of self.now)) → result ≡ true }
        ensures possible { result ≡ true → IsPossible (plan_fork pid child (world_of self.now)) }
    {
        let processes = &self.state.processes;
        processes.is_live(pid) && !processes.was_used(child)
    }

    /// What a filter sees of a target. A process keeps its view once it has exited; a signal and a
    /// knote's own target have none.
    #[tactic(auto, unfolding(kq_model::specs::World::view_in))]
    #[inline(always)]
    pub fn view(&self, target: Target) -> Option<View>
        ensures { result ≡ view_in (world_of self.now) target }
    {
        match target {
            Target::Process(pid) => self.state.processes.view(pid),
            Target::Socket(_)
            | Target::Pipe(_)
            | Target::Open(_)
            | Target::File(_)
            | Target::Signal { .. }
            | Target::Own => self.state.objects.view(target),
        }
    }

    /// Whether the pid names a live process.
    pub fn is_live(&self, pid: u32) -> bool
        ensures { result ≡ is_live pid (world_of self.now).processes }
    {
        self.state.processes.is_live(pid)
    }

    /// What an open descriptor of a process names.
    #[tactic(auto, unfolding(kq_model::specs::World::named_by))]
    pub fn descriptor(&self, pid: u32, number: u32) -> Option<Named>
        ensures { result ≡ named_by pid number (world_of self.now) }
    {
        self.state.processes.named(pid, number)
    }

    /// The slots of a process's numbers, in rising order of these; that of a number which was closed may be
    /// there and empty. None where there is no such process.
    pub fn descriptors(&self, pid: u32) -> &[(u32, Option<Named>)]
        ensures { descriptors_in pid (filled result.now) ≡ descriptors_of pid (world_of self.now).table }
    {
        self.state.processes.descriptors(pid)
    }

    /// The clock, in ns; it is never negative.
    pub fn now(&self) -> i64
        ensures { result ≡ pos (world_of self.now).now }
    {
        self.state.clock as i64
    }
}
