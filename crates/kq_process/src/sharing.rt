//! The records that share descriptors or close them: fork, exit, dup and close.

ghost use Rattle.std.specs.Prelude.{◌≡◌, ◌∷◌, ◌++◌, [], ℕ, OnOk, OnErr, None, Some, true};
ghost use Rattle.std.specs.Prelude.{false, ◌==◌};
ghost use Rattle.kq_model.specs.DescriptorPlans.{plan_close, plan_dup};
ghost use Rattle.kq_model.specs.Holders.{IsNamed};
ghost use Rattle.kq_model.specs.ProcessPlans.{forked, plan_fork, plan_exit, names_of};
ghost use Rattle.kq_model.specs.Processes.{is_live};
ghost use Rattle.kq_model.specs.World.{named_by, Possible};

use crate::counting::{count, hold_each, put_pairs, release_each, release_one, say};
use crate::effect::Effect;
use crate::state::State;
use kq_model::notes::{NOTE_EXIT, NOTE_FORK};
use kq_model::{Hint, Memory, Named, Target, Why};

/// What a fork tells: that it happened, and then the child.
fn put_forked(hints: &mut Vec<(Target, Hint)>, pid: u32, child: u32) -> Result<(), Memory>
    ensures { OnOk result (hints.new.items ≡ hints.old.items ++ forked pid child) }
{
    hints.push((Target::Process(pid), Hint::Note(NOTE_FORK)))?;
    hints.push((Target::Process(pid), Hint::Child(child)))?;
    Ok(())
}

impl State {
    ghost use Rattle.kq_process.specs.Effects.{IsDone, IsPossible, world_after};
    ghost use Rattle.kq_process.specs.Processes.{descriptor_in, AreOnce};
    ghost use Rattle.kq_process.specs.State.{state_of, IsEffectBy, IsNext, sharing};

    /// A child starts, with copies of its parent's descriptors and ignored signals, but no kqueues
    /// (fork(2)). NoProcess; UsedPid: the child's pid was used before.
    #[tactic(auto, unfolding(kq_model::specs::ProcessPlans::plan_fork))]
    #[inline(never)]
    pub fn fork(&mut self, pid: u32, child: u32, effect: &mut Effect) -> Result<(), Memory>
        ensures effect { OnOk result (IsEffectBy (plan_fork pid child) self.old effect.new) }
        ensures world { (place : ℕ) → OnOk result (IsNext place (plan_fork pid child) self.old self.new) }
        ensures memory { OnErr result (state_of self.new ≡ state_of self.old) }
        ensures possible { OnErr result (IsPossible (plan_fork pid child (state_of self.old))) }
    {
        let alloc = self.processes.allocator();
        if !self.processes.is_live(pid) {
            effect.impossible(alloc, Why::NoProcess);
            return Ok(());
        }
        if self.processes.was_used(child) {
            effect.impossible(alloc, Why::UsedPid);
            return Ok(());
        }
        let mut hints = effect.take_hints(alloc);
        put_forked(&mut hints, pid, child)?;
        let most = count(self.processes.descriptors(pid)) as u64;
        let Some(_) = self.descriptors.checked_add(most) else {
            return Err(Memory);
        };
        self.processes.fork(pid, child)?;
        let copies = self.processes.descriptors(child);
        hold_each(&mut self.objects, copies);
        self.descriptors += count(copies) as u64;
        effect.telling(alloc, hints);
        Ok(())
    }

    /// A process exits: all its descriptors are closed, in rising order (exit(3)). NoProcess.
    #[tactic(auto, unfolding(kq_model::specs::ProcessPlans::plan_exit))]
    #[inline(never)]
    pub fn exit(&mut self, pid: u32, status: u32, effect: &mut Effect) -> Result<(), Memory>
        ensures effect { OnOk result (IsEffectBy (plan_exit pid status) self.old effect.new) }
        ensures world { (place : ℕ) → OnOk result (IsNext place (plan_exit pid status) self.old self.new) }
        ensures memory { OnErr result (state_of self.new ≡ state_of self.old) }
        ensures possible { OnErr result (IsPossible (plan_exit pid status (state_of self.old))) }
    {
        let alloc = self.processes.allocator();
        if !self.processes.is_live(pid) {
            effect.impossible(alloc, Why::NoProcess);
            return Ok(());
        }
        let descriptors = self.processes.descriptors(pid);
        let mut closed = effect.take_closed(alloc);
        put_pairs(&mut closed, pid, descriptors)?;
        let mut hints = effect.take_hints(alloc);
        hints.reserve(closed.len() + 1)?;
        let gone = self.processes.exit(pid, status);
        let slots = gone.slots();
        release_each(&mut self.objects, slots, &mut hints);
        self.descriptors -= count(slots) as u64;
        say(&mut hints, (Target::Process(pid), Hint::Note(NOTE_EXIT)));
        effect.done(closed, hints);
        Ok(())
    }

    /// A number is closed (close(2)). NoProcess; NoDescriptor: it is not open.
    #[tactic(auto, unfolding(kq_model::specs::DescriptorPlans::plan_close))]
    #[inline(never)]
    pub fn close(&mut self, pid: u32, fd: u32, effect: &mut Effect) -> Result<(), Memory>
        ensures effect { OnOk result (IsEffectBy (plan_close pid fd) self.old effect.new) }
        ensures world { (place : ℕ) → OnOk result (IsNext place (plan_close pid fd) self.old self.new) }
        ensures memory { OnErr result (state_of self.new ≡ state_of self.old) }
        ensures possible { OnErr result (IsPossible (plan_close pid fd (state_of self.old))) }
    {
        let alloc = self.processes.allocator();
        let named = match self.on(pid, fd) {
            Ok(named) => named,
            Err(why) => {
                effect.impossible(alloc, why);
                return Ok(());
            }
        };
        let mut closed = effect.take_closed(alloc);
        closed.push((pid, fd))?;
        let mut hints = effect.take_hints(alloc);
        hints.reserve(1)?;
        let _ = self.processes.close(pid, fd);
        self.descriptors -= 1;
        release_one(&mut self.objects, named, &mut hints);
        effect.done(closed, hints);
        Ok(())
    }

    /// The number `to` names what `fd` names. It is closed before, if it is open; onto itself nothing
    /// happens (dup2(2)). NoProcess; NoDescriptor: `fd` is not open; WrongKind: it is a kqueue.
    #[tactic(auto, unfolding(kq_model::specs::DescriptorPlans::plan_dup, kq_model::specs::DescriptorPlans::duplicated))]
    #[inline(never)]
    pub fn dup(&mut self, pid: u32, fd: u32, to: u32, effect: &mut Effect) -> Result<(), Memory>
        ensures effect { OnOk result (IsEffectBy (plan_dup pid fd to) self.old effect.new) }
        ensures world { (place : ℕ) → OnOk result (IsNext place (plan_dup pid fd to) self.old self.new) }
        ensures memory { OnErr result (state_of self.new ≡ state_of self.old) }
        ensures possible { OnErr result (IsPossible (plan_dup pid fd to (state_of self.old))) }
    {
        let alloc = self.processes.allocator();
        let named = match self.on(pid, fd) {
            Ok(named) => named,
            Err(why) => {
                effect.impossible(alloc, why);
                return Ok(());
            }
        };
        if let Named::Kqueue(_) = named {
            effect.impossible(alloc, Why::WrongKind);
            return Ok(());
        }
        if fd == to {
            effect.quiet(alloc);
            return Ok(());
        }
        match self.processes.named(pid, to) {
            None => self.share(pid, to, named, effect),
            Some(before) => self.replace(pid, fd, to, before, named, effect),
        }
    }

    // A number that is not open names this too.
    #[tactic(auto, unfolding(kq_model::specs::DescriptorPlans::closes, kq_model::specs::DescriptorPlans::close_hints))]
    #[inline(never)]
    fn share(&mut self, pid: u32, to: u32, named: Named, effect: &mut Effect) -> Result<(), Memory>
        requires live { is_live pid (state_of self.old).processes ≡ true }
        requires absent { named_by pid to (state_of self.old) ≡ None }
        requires there { IsNamed named (names_of (state_of self.old).table) }
        ensures effect { OnOk result (IsDone (sharing pid to None named (state_of self.old)) effect.new) }
        ensures world { (place : ℕ) → OnOk result (state_of self.new
            ≡ world_after place (Possible (sharing pid to None named (state_of self.old))) (state_of self.old)) }
        ensures memory { OnErr result (state_of self.new ≡ state_of self.old) }
    {
        let Some(descriptors) = self.descriptors.checked_add(1) else {
            return Err(Memory);
        };
        self.processes.name(pid, to, named)?;
        self.objects.hold(named);
        self.descriptors = descriptors;
        effect.quiet(self.processes.allocator());
        Ok(())
    }

    // A number that names `before` is closed, and then names what `fd` names.
    #[tactic(auto, unfolding(kq_model::specs::DescriptorPlans::closes, kq_model::specs::DescriptorPlans::close_hints))]
    #[inline(never)]
    fn replace(
        &mut self,
        pid: u32,
        fd: u32,
        to: u32,
        before: Named,
        named: Named,
        effect: &mut Effect,
    ) -> Result<(), Memory>
        requires live { is_live pid (state_of self.old).processes ≡ true }
        requires before { named_by pid to (state_of self.old) ≡ Some before }
        requires there { named_by pid fd (state_of self.old) ≡ Some named }
        requires other { (fd == to) ≡ false }
        requires once { AreOnce (descriptor_in pid (to, before) ∷ []) (state_of self.old).table }
        ensures effect { OnOk result (IsDone (sharing pid to (Some before) named (state_of self.old)) effect.new) }
        ensures world { (place : ℕ) → OnOk result (state_of self.new ≡ world_after place
            (Possible (sharing pid to (Some before) named (state_of self.old))) (state_of self.old)) }
        ensures memory { OnErr result (state_of self.new ≡ state_of self.old) }
    {
        let alloc = self.processes.allocator();
        let mut closed = effect.take_closed(alloc);
        closed.push((pid, to))?;
        let mut hints = effect.take_hints(alloc);
        hints.reserve(1)?;
        self.processes.name(pid, to, named)?;
        release_one(&mut self.objects, before, &mut hints);
        self.objects.hold(named);
        effect.done(closed, hints);
        Ok(())
    }
}
