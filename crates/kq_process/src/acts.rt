//! The records about sockets, pipes and files.

// The condition of each of these records is that nothing that is named was made at its place or later.

ghost use Rattle.std.specs.Prelude.{◌≡◌, ◌∷◌, [], ◌==◌, OnOk, OnErr, None, true, false};
ghost use Rattle.kq_model.specs.CountedWorld.{IsCountedWorld};
ghost use Rattle.kq_model.specs.Holders.{made_names};
ghost use Rattle.kq_model.specs.ObjectRecordPlans.{plan_act, plan_at, plan_socket, plan_accept, plan_pipe, plan_open};
ghost use Rattle.kq_model.specs.ObjectRecordPlans.{pipe_ends};
ghost use Rattle.kq_model.specs.Processes.{is_live};
ghost use Rattle.kq_model.specs.World.{named_by};
ghost use Rattle.kq_model.specs.declared.act.Act.TheVariants as act;

use crate::effect::Effect;
use crate::state::State;
use crate::uses::Use;
use kq_model::{Act, Memory, Mode, Named, Why};
use kq_objects::PlanError;

impl State {
    ghost use Rattle.kq_process.specs.Effects.{IsPossible};
    ghost use Rattle.kq_process.specs.Processes.{descriptor_in};
    ghost use Rattle.kq_process.specs.Uses.{act_on};
    ghost use Rattle.kq_process.specs.State.{state_of, IsEffectBy, IsNext};

    /// A process uses an object by a descriptor. NoProcess; NoDescriptor: the number is not open; then
    /// the reasons of the object.
    #[tactic(auto, unfolding(kq_model::specs::ObjectRecordPlans::plan_at))]
    pub fn use_object(
        &mut self,
        place: u64,
        pid: u32,
        fd: u32,
        what: Use,
        effect: &mut Effect,
    ) -> Result<(), Memory>
        requires { IsCountedWorld place (state_of self.old) }
        ensures effect { OnOk result (IsEffectBy (plan_at place pid fd (act_on what)) self.old effect.new) }
        ensures world { OnOk result (IsNext place (plan_at place pid fd (act_on what)) self.old self.new) }
        ensures memory { OnErr result (state_of self.new ≡ state_of self.old) }
        ensures possible { OnErr result (IsPossible (plan_at place pid fd (act_on what) (state_of self.old))) }
    {
        match self.on(pid, fd) {
            Ok(on) => self.act(place, &what.on(on), effect),
            Err(why) => {
                effect.impossible(self.processes.allocator(), why);
                Ok(())
            }
        }
    }

    /// A record about objects that gives no number a name: those of files by their numbers, and those
    /// whose descriptor is resolved. The reasons are those of the object.
    #[tactic(auto, unfolding(crate::proofs::Unfolded::acting))]
    pub fn act(&mut self, place: u64, act: &Act, effect: &mut Effect) -> Result<(), Memory>
        requires earlier { IsCountedWorld place (state_of self.old) }
        requires none { made_names place act.now ≡ [] }
        ensures effect { OnOk result (IsEffectBy (plan_act place [] act.now) self.old effect.new) }
        ensures world { OnOk result (IsNext place (plan_act place [] act.now) self.old self.new) }
        ensures memory { OnErr result (state_of self.new ≡ state_of self.old) }
        ensures possible { OnErr result (IsPossible (plan_act place [] act.now (state_of self.old))) }
    {
        let alloc = self.processes.allocator();
        match self.objects.plan(place, act) {
            Err(PlanError::Memory) => Err(Memory),
            Err(PlanError::Why(why)) => {
                effect.impossible(alloc, why);
                Ok(())
            }
            Ok(plan) => {
                let hints = effect.take_hints_of(alloc, &plan)?;
                self.objects.commit(plan);
                effect.telling(alloc, hints);
                Ok(())
            }
        }
    }

    // A record that makes an object, which the new number names.
    #[tactic(auto, unfolding(crate::proofs::Unfolded::acting))]
    #[inline(never)]
    fn act_naming(
        &mut self,
        place: u64,
        act: &Act,
        pid: u32,
        number: u32,
        named: Named,
        effect: &mut Effect,
    ) -> Result<(), Memory>
        requires earlier { IsCountedWorld place (state_of self.old) }
        requires live { is_live pid (state_of self.old).processes ≡ true }
        requires absent { named_by pid number (state_of self.old) ≡ None }
        requires made { made_names place act.now ≡ named ∷ [] }
        ensures effect { OnOk result
            (IsEffectBy (plan_act place (descriptor_in pid (number, named) ∷ []) act.now) self.old effect.new) }
        ensures world { OnOk result
            (IsNext place (plan_act place (descriptor_in pid (number, named) ∷ []) act.now) self.old self.new) }
        ensures memory { OnErr result (state_of self.new ≡ state_of self.old) }
        ensures possible { OnErr result
            (IsPossible (plan_act place (descriptor_in pid (number, named) ∷ []) act.now (state_of self.old))) }
    {
        let alloc = self.processes.allocator();
        match self.objects.plan(place, act) {
            Err(PlanError::Memory) => Err(Memory),
            Err(PlanError::Why(why)) => {
                effect.impossible(alloc, why);
                Ok(())
            }
            Ok(plan) => {
                let Some(descriptors) = self.descriptors.checked_add(1) else {
                    return Err(Memory);
                };
                let hints = effect.take_hints_of(alloc, &plan)?;
                self.processes.name(pid, number, named)?;
                self.objects.commit(plan);
                self.descriptors = descriptors;
                effect.telling(alloc, hints);
                Ok(())
            }
        }
    }

    /// A socket is made, under a number that is not open (socket(2)). NoProcess; UsedDescriptor: the
    /// number is open; TooMany: a size of a buffer.
    #[tactic(auto, unfolding(crate::proofs::Unfolded::opening_socket))]
    #[inline(never)]
    pub fn socket(
        &mut self,
        place: u64,
        pid: u32,
        fd: u32,
        receive_buffer: u32,
        send_buffer: u32,
        effect: &mut Effect,
    ) -> Result<(), Memory>
        requires { IsCountedWorld place (state_of self.old) }
        ensures effect { OnOk result
            (IsEffectBy (plan_socket place pid fd receive_buffer send_buffer) self.old effect.new) }
        ensures world { OnOk result
            (IsNext place (plan_socket place pid fd receive_buffer send_buffer) self.old self.new) }
        ensures memory { OnErr result (state_of self.new ≡ state_of self.old) }
        ensures possible { OnErr result
            (IsPossible (plan_socket place pid fd receive_buffer send_buffer (state_of self.old))) }
    {
        let alloc = self.processes.allocator();
        if !self.processes.is_live(pid) {
            effect.impossible(alloc, Why::NoProcess);
            return Ok(());
        }
        if self.processes.named(pid, fd).is_some() {
            effect.impossible(alloc, Why::UsedDescriptor);
            return Ok(());
        }
        let act = Act::Socket {
            receive_buffer,
            send_buffer,
        };
        self.act_naming(place, &act, pid, fd, Named::Socket(place), effect)
    }

    /// A connection that waits at a socket becomes a socket of its own, under a number that is not open
    /// (accept(2)). NoProcess; NoDescriptor: `fd` is not open; UsedDescriptor: `to` is; then WrongKind,
    /// Absent: no connection waits; TooMany: a size of a buffer.
    #[tactic(auto, unfolding(crate::proofs::Unfolded::opening_accepted))]
    #[inline(never)]
    pub fn accept(
        &mut self,
        place: u64,
        pid: u32,
        fd: u32,
        to: u32,
        receive_buffer: u32,
        send_buffer: u32,
        effect: &mut Effect,
    ) -> Result<(), Memory>
        requires { IsCountedWorld place (state_of self.old) }
        ensures effect { OnOk result
            (IsEffectBy (plan_accept place pid fd to receive_buffer send_buffer) self.old effect.new) }
        ensures world { OnOk result
            (IsNext place (plan_accept place pid fd to receive_buffer send_buffer) self.old self.new) }
        ensures memory { OnErr result (state_of self.new ≡ state_of self.old) }
        ensures possible { OnErr result
            (IsPossible (plan_accept place pid fd to receive_buffer send_buffer (state_of self.old))) }
    {
        let alloc = self.processes.allocator();
        let on = match self.on(pid, fd) {
            Ok(on) => on,
            Err(why) => {
                effect.impossible(alloc, why);
                return Ok(());
            }
        };
        if self.processes.named(pid, to).is_some() {
            effect.impossible(alloc, Why::UsedDescriptor);
            return Ok(());
        }
        let act = Act::Accept {
            on,
            receive_buffer,
            send_buffer,
        };
        self.act_naming(place, &act, pid, to, Named::Socket(place), effect)
    }

    /// A file is opened, under a number that is not open (open(2)). NoProcess; UsedDescriptor: the
    /// number is open; then Absent: there is no such file.
    #[tactic(auto, unfolding(crate::proofs::Unfolded::opening_file))]
    #[inline(never)]
    pub fn open(
        &mut self,
        place: u64,
        pid: u32,
        fd: u32,
        file: u32,
        mode: Mode,
        effect: &mut Effect,
    ) -> Result<(), Memory>
        requires { IsCountedWorld place (state_of self.old) }
        ensures effect { OnOk result (IsEffectBy (plan_open place pid fd file mode) self.old effect.new) }
        ensures world { OnOk result (IsNext place (plan_open place pid fd file mode) self.old self.new) }
        ensures memory { OnErr result (state_of self.new ≡ state_of self.old) }
        ensures possible { OnErr result (IsPossible (plan_open place pid fd file mode (state_of self.old))) }
    {
        let alloc = self.processes.allocator();
        if !self.processes.is_live(pid) {
            effect.impossible(alloc, Why::NoProcess);
            return Ok(());
        }
        if self.processes.named(pid, fd).is_some() {
            effect.impossible(alloc, Why::UsedDescriptor);
            return Ok(());
        }
        let named = Named::Open {
            description: place,
            file,
        };
        self.act_naming(place, &Act::Open { file, mode }, pid, fd, named, effect)
    }

    /// A pipe is made, under two numbers that are not open (pipe(2)). NoProcess; UsedDescriptor: one of
    /// them is open, or both are the same; TooMany: its capacity.
    #[tactic(auto, unfolding(crate::proofs::Unfolded::opening_pipe))]
    #[inline(never)]
    pub fn pipe(
        &mut self,
        place: u64,
        pid: u32,
        read_fd: u32,
        write_fd: u32,
        cap: u32,
        effect: &mut Effect,
    ) -> Result<(), Memory>
        requires { IsCountedWorld place (state_of self.old) }
        ensures effect { OnOk result (IsEffectBy (plan_pipe place pid read_fd write_fd cap) self.old effect.new) }
        ensures world { OnOk result (IsNext place (plan_pipe place pid read_fd write_fd cap) self.old self.new) }
        ensures memory { OnErr result (state_of self.new ≡ state_of self.old) }
        ensures possible { OnErr result (IsPossible (plan_pipe place pid read_fd write_fd cap (state_of self.old))) }
    {
        let alloc = self.processes.allocator();
        if !self.processes.is_live(pid) {
            effect.impossible(alloc, Why::NoProcess);
            return Ok(());
        }
        if read_fd == write_fd {
            effect.impossible(alloc, Why::UsedDescriptor);
            return Ok(());
        }
        if self.processes.named(pid, read_fd).is_some() {
            effect.impossible(alloc, Why::UsedDescriptor);
            return Ok(());
        }
        if self.processes.named(pid, write_fd).is_some() {
            effect.impossible(alloc, Why::UsedDescriptor);
            return Ok(());
        }
        self.make_pipe(place, pid, read_fd, write_fd, cap, effect)
    }

    // A pipe, whose ends these two new numbers name.
    #[tactic(auto, unfolding(crate::proofs::Unfolded::acting))]
    fn make_pipe(
        &mut self,
        place: u64,
        pid: u32,
        read_fd: u32,
        write_fd: u32,
        cap: u32,
        effect: &mut Effect,
    ) -> Result<(), Memory>
        requires earlier { IsCountedWorld place (state_of self.old) }
        requires live { is_live pid (state_of self.old).processes ≡ true }
        requires differ { (read_fd == write_fd) ≡ false }
        requires read { named_by pid read_fd (state_of self.old) ≡ None }
        requires write { named_by pid write_fd (state_of self.old) ≡ None }
        ensures effect { OnOk result
            (IsEffectBy (plan_act place (pipe_ends place pid read_fd write_fd) (act.Pipe cap)) self.old effect.new) }
        ensures world { OnOk result
            (IsNext place (plan_act place (pipe_ends place pid read_fd write_fd) (act.Pipe cap)) self.old self.new) }
        ensures memory { OnErr result (state_of self.new ≡ state_of self.old) }
        ensures possible { OnErr result (IsPossible
            (plan_act place (pipe_ends place pid read_fd write_fd) (act.Pipe cap) (state_of self.old))) }
    {
        let alloc = self.processes.allocator();
        match self.objects.plan(place, &Act::Pipe { cap }) {
            Err(PlanError::Memory) => Err(Memory),
            Err(PlanError::Why(why)) => {
                effect.impossible(alloc, why);
                Ok(())
            }
            Ok(plan) => {
                let Some(descriptors) = self.descriptors.checked_add(2) else {
                    return Err(Memory);
                };
                let hints = effect.take_hints_of(alloc, &plan)?;
                let read = (read_fd, Named::PipeRead(place));
                self.processes
                    .name_both(pid, read, (write_fd, Named::PipeWrite(place)))?;
                self.objects.commit(plan);
                self.descriptors = descriptors;
                effect.telling(alloc, hints);
                Ok(())
            }
        }
    }
}
