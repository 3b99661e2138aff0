//! The plan of each record about objects, or the first reason why it is impossible.

ghost use Rattle.std.specs.Prelude.{◌≡◌, IfOk, List};
ghost use Rattle.kq_model.specs.Planning as model;
ghost use Rattle.kq_model.specs.Objects.{IsFree};
ghost use Rattle.kq_model.specs.declared.doing.Doing.{Doing};
ghost use Rattle.kq_objects.specs.Objects.{objects_of, IsPlanned, IsReady};

use crate::objects::Objects;
use crate::{Plan, PlanError};
use kq_model::{Act, Named, Why};

impl Objects {
    /// What the record of this place does to the objects, or the first reason why it is impossible:
    /// WrongKind, Absent, UsedFile, TooMany. Whether the process and its numbers are right is for
    /// the caller to see before. Nothing that contracts see is changed until `commit`.
    ///
    /// Memory is wanted only for a record that is possible: an impossible one is answered with its
    /// reason, whatever memory there is.
    #[tactic(auto, unfolding(kq_model::specs::Planning::plan))]
    pub fn plan(&mut self, place: u64, act: &Act) -> Result<Plan, PlanError>
        requires { IsFree place (objects_of self.old) }
        ensures same { objects_of self.new ≡ objects_of self.old }
        ensures plan { IsPlanned result (model.plan place act.now (objects_of self.old)) }
        ensures ready { IfOk result (λ p. IsReady p.doings self.new) }
        // So does every plan that was made before and not carried out, also after an error.
        ensures stays { (ds : List Doing) → IsReady ds self.old → IsReady ds self.new }
    {
        match *act {
            Act::Socket {
                receive_buffer,
                send_buffer,
            } => self.plan_socket(place, receive_buffer, send_buffer),
            Act::Listen { on, backlog } => self.plan_listen(on, backlog),
            Act::Arrive { on } => self.plan_arrive(on),
            Act::Accept {
                on,
                receive_buffer,
                send_buffer,
            } => self.plan_accept(place, on, receive_buffer, send_buffer),
            Act::Connect { on } => self.plan_connect(on),
            Act::Receive { on, bytes } => self.plan_receive(on, bytes),
            Act::Transmit { on, bytes } => self.plan_transmit(on, bytes),
            Act::Shut { on, side, error } => self.plan_shut(on, side, error),
            Act::LowWater { on, side, mark } => self.plan_low_water(on, side, mark),
            Act::Pipe { cap } => self.plan_pipe(place, cap),
            Act::Read { on, bytes } => self.plan_read(on, bytes),
            Act::Write { on, bytes } => self.plan_write(on, bytes),
            Act::File { file, size } => self.plan_file(file, size),
            Act::Open { file, mode } => self.plan_open(place, file, mode),
            Act::Seek { on, offset } => self.plan_seek(on, offset),
            Act::Truncate { file, size } => self.plan_truncate(file, size),
            Act::Note { file, note } => self.plan_note(file, note),
        }
    }

    #[tactic(auto, unfolding(kq_model::specs::Planning::plan_read))]
    fn plan_read(&self, on: Named, bytes: u32) -> Result<Plan, PlanError>
        ensures plan { IsPlanned result (model.plan_read on bytes (objects_of self.now)) }
        ensures ready { IfOk result (λ p. IsReady p.doings self.now) }
    {
        match on {
            Named::Socket(_) => self.read_socket(on, bytes),
            Named::PipeRead(place) => self.read_pipe(place, bytes),
            Named::Open { description, .. } => self.read_file(description, bytes),
            Named::PipeWrite(_) | Named::Kqueue(_) => Err(PlanError::Why(Why::WrongKind)),
        }
    }

    #[tactic(auto, unfolding(kq_model::specs::Planning::plan_write))]
    fn plan_write(&self, on: Named, bytes: u32) -> Result<Plan, PlanError>
        ensures plan { IsPlanned result (model.plan_write on bytes (objects_of self.now)) }
        ensures ready { IfOk result (λ p. IsReady p.doings self.now) }
    {
        match on {
            Named::Socket(_) => self.write_socket(on, bytes),
            Named::PipeWrite(place) => self.write_pipe(place, bytes),
            Named::Open { description, .. } => self.write_file(description, bytes),
            Named::PipeRead(_) | Named::Kqueue(_) => Err(PlanError::Why(Why::WrongKind)),
        }
    }
}
