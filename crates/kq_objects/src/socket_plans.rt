//! The plans of the records about sockets, which a descriptor names.

ghost use Rattle.std.specs.Prelude.{◌≡◌, None, Some, IfOk, List};
ghost use Rattle.kq_objects.specs.ByPlace.{object_at};
ghost use Rattle.std.specs.Result.{ForOk};
ghost use Rattle.kq_model.specs.SocketPlans.{plan_socket, socket_at, socket_plan, plan_at_socket, plan_accept};
ghost use Rattle.kq_model.specs.SocketPlans.{accepted};
ghost use Rattle.kq_model.specs.SocketSteps.{listen, arrive, accept, connect, receive, transmit, shut, low_water};
ghost use Rattle.kq_model.specs.SocketSteps.{read_socket, write_socket};
ghost use Rattle.kq_model.specs.declared.doing.Doing.{Doing};
ghost use Rattle.kq_objects.specs.Fits.{IsNote};
ghost use Rattle.kq_objects.specs.Objects.{objects_of, AreSocketNotes, IsPlanned, IsReady};

use crate::objects::Objects;
use crate::socket::Socket;
use crate::socket_steps::{SocketStep, is_capacity};
use crate::{Plan, PlanError};
use kq_model::{Doing, Memory, Named, Side, SocketRecord, Target, Why};

impl Objects {
    #[tactic(auto, unfolding(kq_model::specs::SocketPlans::plan_socket, kq_model::specs::ObjectPlan::hints_for))]
    pub(crate) fn plan_socket(
        &mut self,
        place: u64,
        receive_buffer: u32,
        send_buffer: u32,
    ) -> Result<Plan, PlanError>
        requires { object_at self.old.sockets place ≡ None }
        ensures same { objects_of self.new ≡ objects_of self.old }
        ensures plan { IsPlanned result (plan_socket place receive_buffer send_buffer) }
        ensures ready { IfOk result (λ p. IsReady p.doings self.new) }
        ensures stays { (ds : List Doing) → IsReady ds self.old → IsReady ds self.new }
    {
        if !(is_capacity(receive_buffer) && is_capacity(send_buffer)) {
            return Err(PlanError::Why(Why::TooMany));
        }
        self.reserve_socket(place)?;
        let told = SocketRecord::Made {
            receive_buffer,
            send_buffer,
        };
        let doing = Doing::ToSocket { place, told };
        Ok(Plan::of_one(self.alloc, doing, Target::Socket(place), None))
    }

    /// The socket that a descriptor names, with its place.
    #[tactic(auto, unfolding(kq_model::specs::SocketPlans::socket_at, kq_model::specs::SocketPlans::socket_found))]
    fn socket_at(&self, on: Named) -> Result<(u64, Socket), Why>
        ensures exact { result ≡ socket_at on (objects_of self.now) }
        ensures there { IfOk result (λ found. object_at self.now.sockets found.0 ≡ Some found.1) }
    {
        let Named::Socket(place) = on else {
            return Err(Why::WrongKind);
        };
        match self.sockets.get(place) {
            Some(socket) => Ok((place, *socket)),
            None => Err(Why::WrongKind),
        }
    }

    /// The plan of one step at a socket.
    #[tactic(auto, unfolding(kq_model::specs::SocketPlans::socket_plan))]
    fn note_socket(&self, place: u64, step: SocketStep) -> Result<Plan, PlanError>
        requires { ForOk step (λ s. IsNote s.0 (object_at self.now.sockets place)) }
        ensures plan { IsPlanned result (socket_plan place step) }
        ensures ready { IfOk result (λ p. IsReady p.doings self.now) }
        ensures notes { IfOk result (λ p. AreSocketNotes p.doings (objects_of self.now)) }
    {
        let (told, hint) = step?;
        let doing = Doing::ToSocket { place, told };
        Ok(Plan::of_one(self.alloc, doing, Target::Socket(place), hint))
    }

    /// The plan of a step at the socket that a descriptor names, if it listens and one may be
    /// accepted there.
    #[tactic(auto, unfolding(kq_model::specs::SocketPlans::plan_at_socket, kq_model::specs::SocketPlans::step_of))]
    fn take_pending(
        &self,
        on: Named,
        receive_buffer: u32,
        send_buffer: u32,
    ) -> Result<Plan, PlanError>
        ensures plan { IsPlanned result (plan_at_socket (accept receive_buffer send_buffer) on (objects_of self.now)) }
        ensures ready { IfOk result (λ p. IsReady p.doings self.now) }
        ensures notes { IfOk result (λ p. AreSocketNotes p.doings (objects_of self.now)) }
    {
        let (place, socket) = self.socket_at(on)?;
        self.note_socket(place, socket.accept(receive_buffer, send_buffer))
    }

    #[tactic(auto, unfolding(kq_model::specs::SocketPlans::plan_accept, kq_model::specs::SocketPlans::accepted))]
    #[inline(never)]
    pub(crate) fn plan_accept(
        &mut self,
        place: u64,
        on: Named,
        receive_buffer: u32,
        send_buffer: u32,
    ) -> Result<Plan, PlanError>
        requires { object_at self.old.sockets place ≡ None }
        ensures same { objects_of self.new ≡ objects_of self.old }
        ensures plan { IsPlanned result (plan_accept place on receive_buffer send_buffer (objects_of self.old)) }
        ensures ready { IfOk result (λ p. IsReady p.doings self.new) }
        ensures stays { (ds : List Doing) → IsReady ds self.old → IsReady ds self.new }
    {
        let taken = self.take_pending(on, receive_buffer, send_buffer)?;
        self.reserve_socket(place)?;
        let made = SocketRecord::Made {
            receive_buffer,
            send_buffer,
        };
        let first = Doing::ToSocket { place, told: made };
        let second = Doing::ToSocket {
            place,
            told: SocketRecord::Connected,
        };
        Ok(taken.preceded_by(self.alloc, first, second)?)
    }

    #[tactic(auto, unfolding(kq_model::specs::SocketPlans::plan_at_socket, kq_model::specs::SocketPlans::step_of))]
    pub(crate) fn plan_listen(&self, on: Named, backlog: u32) -> Result<Plan, PlanError>
        ensures plan { IsPlanned result (plan_at_socket (listen backlog) on (objects_of self.now)) }
        ensures ready { IfOk result (λ p. IsReady p.doings self.now) }
    {
        let (place, socket) = self.socket_at(on)?;
        self.note_socket(place, socket.listen(backlog))
    }

    #[tactic(auto, unfolding(kq_model::specs::SocketPlans::plan_at_socket, kq_model::specs::SocketPlans::step_of))]
    pub(crate) fn plan_arrive(&self, on: Named) -> Result<Plan, PlanError>
        ensures plan { IsPlanned result (plan_at_socket arrive on (objects_of self.now)) }
        ensures ready { IfOk result (λ p. IsReady p.doings self.now) }
    {
        let (place, socket) = self.socket_at(on)?;
        self.note_socket(place, socket.arrive())
    }

    #[tactic(auto, unfolding(kq_model::specs::SocketPlans::plan_at_socket, kq_model::specs::SocketPlans::step_of))]
    pub(crate) fn plan_connect(&self, on: Named) -> Result<Plan, PlanError>
        ensures plan { IsPlanned result (plan_at_socket connect on (objects_of self.now)) }
        ensures ready { IfOk result (λ p. IsReady p.doings self.now) }
    {
        let (place, socket) = self.socket_at(on)?;
        self.note_socket(place, socket.connect())
    }

    #[tactic(auto, unfolding(kq_model::specs::SocketPlans::plan_at_socket, kq_model::specs::SocketPlans::step_of))]
    pub(crate) fn plan_receive(&self, on: Named, bytes: u32) -> Result<Plan, PlanError>
        ensures plan { IsPlanned result (plan_at_socket (receive bytes) on (objects_of self.now)) }
        ensures ready { IfOk result (λ p. IsReady p.doings self.now) }
    {
        let (place, socket) = self.socket_at(on)?;
        self.note_socket(place, socket.receive(bytes))
    }

    #[tactic(auto, unfolding(kq_model::specs::SocketPlans::plan_at_socket, kq_model::specs::SocketPlans::step_of))]
    pub(crate) fn plan_transmit(&self, on: Named, bytes: u32) -> Result<Plan, PlanError>
        ensures plan { IsPlanned result (plan_at_socket (transmit bytes) on (objects_of self.now)) }
        ensures ready { IfOk result (λ p. IsReady p.doings self.now) }
    {
        let (place, socket) = self.socket_at(on)?;
        self.note_socket(place, socket.transmit(bytes))
    }

    #[tactic(auto, unfolding(kq_model::specs::SocketPlans::plan_at_socket, kq_model::specs::SocketPlans::step_of))]
    pub(crate) fn plan_shut(&self, on: Named, side: Side, error: u32) -> Result<Plan, PlanError>
        ensures plan { IsPlanned result (plan_at_socket (shut side error) on (objects_of self.now)) }
        ensures ready { IfOk result (λ p. IsReady p.doings self.now) }
    {
        let (place, socket) = self.socket_at(on)?;
        self.note_socket(place, socket.shut(side, error))
    }

    #[tactic(auto, unfolding(kq_model::specs::SocketPlans::plan_at_socket, kq_model::specs::SocketPlans::step_of))]
    pub(crate) fn plan_low_water(&self, on: Named, side: Side, mark: u32) -> Result<Plan, PlanError>
        ensures plan { IsPlanned result (plan_at_socket (low_water side mark) on (objects_of self.now)) }
        ensures ready { IfOk result (λ p. IsReady p.doings self.now) }
    {
        let (place, socket) = self.socket_at(on)?;
        self.note_socket(place, socket.low_water(side, mark))
    }

    #[tactic(auto, unfolding(kq_model::specs::SocketPlans::plan_at_socket, kq_model::specs::SocketPlans::step_of))]
    pub(crate) fn read_socket(&self, on: Named, bytes: u32) -> Result<Plan, PlanError>
        ensures plan { IsPlanned result (plan_at_socket (read_socket bytes) on (objects_of self.now)) }
        ensures ready { IfOk result (λ p. IsReady p.doings self.now) }
    {
        let (place, socket) = self.socket_at(on)?;
        self.note_socket(place, socket.read(bytes))
    }

    #[tactic(auto, unfolding(kq_model::specs::SocketPlans::plan_at_socket, kq_model::specs::SocketPlans::step_of))]
    pub(crate) fn write_socket(&self, on: Named, bytes: u32) -> Result<Plan, PlanError>
        ensures plan { IsPlanned result (plan_at_socket (write_socket bytes) on (objects_of self.now)) }
        ensures ready { IfOk result (λ p. IsReady p.doings self.now) }
    {
        let (place, socket) = self.socket_at(on)?;
        self.note_socket(place, socket.write(bytes))
    }
}
