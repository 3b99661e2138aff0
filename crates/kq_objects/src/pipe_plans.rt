//! The plans of the records that make, read and write pipes.

ghost use Rattle.std.specs.Prelude.{◌≡◌, None, Some, IfOk, List};
ghost use Rattle.kq_objects.specs.ByPlace.{object_at};
ghost use Rattle.std.specs.Result.{ForOk};
ghost use Rattle.kq_model.specs.PipePlans.{plan_pipe, pipe_plan, plan_at_pipe};
ghost use Rattle.kq_model.specs.PipeSteps.{read_pipe, write_pipe};
ghost use Rattle.kq_model.specs.declared.doing.Doing.{Doing};
ghost use Rattle.kq_objects.specs.Fits.{IsPipeNote};
ghost use Rattle.kq_objects.specs.Objects.{objects_of, IsPlanned, IsReady};

use crate::objects::Objects;
use crate::pipe_steps::PipeStep;
use crate::socket_steps::is_capacity;
use crate::{Plan, PlanError};
use kq_model::{Doing, PipeRecord, Target, Why};

impl Objects {
    #[tactic(auto, unfolding(kq_model::specs::PipePlans::plan_pipe, kq_model::specs::ObjectPlan::hints_for))]
    pub(crate) fn plan_pipe(&mut self, place: u64, cap: u32) -> Result<Plan, PlanError>
        requires { object_at self.old.pipes place ≡ None }
        ensures same { objects_of self.new ≡ objects_of self.old }
        ensures plan { IsPlanned result (plan_pipe place cap) }
        ensures ready { IfOk result (λ p. IsReady p.doings self.new) }
        ensures stays { (ds : List Doing) → IsReady ds self.old → IsReady ds self.new }
    {
        if !is_capacity(cap) {
            return Err(PlanError::Why(Why::TooMany));
        }
        self.reserve_pipe(place)?;
        let doing = Doing::ToPipe {
            place,
            told: PipeRecord::Made { cap },
        };
        Ok(Plan::of_one(self.alloc, doing, Target::Pipe(place), None))
    }

    /// The plan of one step at a pipe.
    #[tactic(auto, unfolding(kq_model::specs::PipePlans::pipe_plan))]
    fn note_pipe(&self, place: u64, step: PipeStep) -> Result<Plan, PlanError>
        requires { ForOk step (λ s. IsPipeNote s.0 (object_at self.now.pipes place)) }
        ensures plan { IsPlanned result (pipe_plan place step) }
        ensures ready { IfOk result (λ p. IsReady p.doings self.now) }
    {
        let (told, hint) = step?;
        let doing = Doing::ToPipe { place, told };
        Ok(Plan::of_one(self.alloc, doing, Target::Pipe(place), hint))
    }

    #[tactic(auto, unfolding(kq_model::specs::PipePlans::plan_at_pipe))]
    pub(crate) fn read_pipe(&self, place: u64, bytes: u32) -> Result<Plan, PlanError>
        ensures plan { IsPlanned result (plan_at_pipe (read_pipe bytes) place (object_at self.now.pipes place)) }
        ensures ready { IfOk result (λ p. IsReady p.doings self.now) }
    {
        match self.pipes.get(place) {
            Some(pipe) => self.note_pipe(place, pipe.read(bytes)),
            None => Err(PlanError::Why(Why::WrongKind)),
        }
    }

    #[tactic(auto, unfolding(kq_model::specs::PipePlans::plan_at_pipe))]
    pub(crate) fn write_pipe(&self, place: u64, bytes: u32) -> Result<Plan, PlanError>
        ensures plan { IsPlanned result
            (plan_at_pipe (write_pipe bytes) place (object_at self.now.pipes place)) }
        ensures ready { IfOk result (λ p. IsReady p.doings self.now) }
    {
        match self.pipes.get(place) {
            Some(pipe) => self.note_pipe(place, pipe.write(bytes)),
            None => Err(PlanError::Why(Why::WrongKind)),
        }
    }
}
