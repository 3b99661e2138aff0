//! The processes, the objects that their descriptors name, and the clock, as one state.

ghost use Rattle.std.specs.Prelude.{◌≡◌, ◌∷◌, [], ◌<◌, ◌^◌, IfOk, OnOk, Some, true};
ghost use Rattle.kq_model.specs.declared.object.Named.{Named as NamedObject};
ghost use Rattle.kq_model.specs.DescriptorPlans.{on_descriptor};
ghost use Rattle.kq_model.specs.Processes.{is_live};
ghost use Rattle.kq_model.specs.Objects.{counted};
ghost use Rattle.kq_model.specs.World.{empty_world, named_by, Planned};
ghost use Rattle.kq_objects.specs.Objects.{objects_of};
ghost use Rattle.kq_process.specs.Counts.{IsSound};
ghost use Rattle.kq_process.specs.Processes.{table_of, descriptor_in, AreOnce};

use crate::processes::Processes;
use kq_model::{Memory, Named, Why};
use kq_objects::Objects;
use std::alloc::Global;

/// The processes, their descriptors, the objects that these name, and the clock. Contracts see it
/// by `state_of`.
#[derive(Drop)]
pub struct State {
    pub(crate) processes: Processes,
    pub(crate) objects: Objects,
    /// How many descriptors are open.
    pub(crate) descriptors: u64,
    /// The clock, in ns.
    pub(crate) clock: u64,
    ghost sound: { IsSound (table_of processes) (objects_of objects) descriptors },
    ghost moment: { clock < 2 ^ 63 },
}

impl State {
    ghost use Rattle.kq_process.specs.Effects.{planned_on};
    ghost use Rattle.kq_process.specs.State.{state_of};

    /// Before the first record.
    pub fn new(alloc: Global) -> Result<Self, Memory>
        ensures { IfOk result (λ s. state_of s ≡ empty_world counted) }
    {
        Ok(State {
            processes: Processes::new(alloc),
            objects: Objects::new(alloc)?,
            descriptors: 0,
            clock: 0,
        })
    }

    /// What a record's descriptor names, or NoProcess or NoDescriptor.
    #[tactic(auto, unfolding(kq_model::specs::World::named_by))]
    #[inline(always)]
    pub fn on(&self, pid: u32, fd: u32) -> Result<Named, Why>
        ensures planned { (planned : NamedObject → Planned) →
            on_descriptor pid fd planned (state_of self.now) ≡ planned_on planned result }
        ensures live { OnOk result (is_live pid (state_of self.now).processes ≡ true) }
        ensures named { IfOk result (λ named. named_by pid fd (state_of self.now) ≡ Some named) }
        ensures once { IfOk result (λ named. AreOnce (descriptor_in pid (fd, named) ∷ [])
            (state_of self.now).table) }
    {
        self.processes.on(pid, fd)
    }
}
