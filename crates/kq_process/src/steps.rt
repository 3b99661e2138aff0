//! The records about one process, the clock, a new kqueue and a kevent call.

ghost use Rattle.std.specs.Prelude.{◌≡◌, ◌<◌, ◌^◌, ℕ, OnOk, OnErr};
ghost use Rattle.kq_model.specs.DescriptorPlans.{plan_kqueue, plan_kevent};
ghost use Rattle.kq_model.specs.ProcessPlans.{plan_proc, plan_exec, plan_sigset, plan_sig, plan_clock, plan_clock_at};

use crate::effect::Effect;
use crate::state::State;
use kq_model::{Change, Memory, Named, Why};

impl State {
    ghost use Rattle.kq_process.specs.Effects.{IsPossible};
    ghost use Rattle.kq_process.specs.State.{state_of, IsEffectBy, IsNext};

    /// A process starts. UsedPid: the pid was used before.
    #[inline(never)]
    pub fn proc(&mut self, pid: u32, effect: &mut Effect) -> Result<(), Memory>
        ensures effect { OnOk result (IsEffectBy (plan_proc pid) self.old effect.new) }
        ensures world { (place : ℕ) → OnOk result (IsNext place (plan_proc pid) self.old self.new) }
        ensures memory { OnErr result (state_of self.new ≡ state_of self.old) }
        ensures possible { OnErr result (IsPossible (plan_proc pid (state_of self.old))) }
    {
        self.processes.proc(pid, effect)
    }

    /// A process executes another program, which changes nothing here. NoProcess.
    #[inline(never)]
    pub fn exec(&self, pid: u32, effect: &mut Effect) -> Result<(), Memory>
        ensures effect { OnOk result (IsEffectBy (plan_exec pid) self.now effect.new) }
        ensures world { (place : ℕ) → IsNext place (plan_exec pid) self.now self.now }
        ensures possible { OnErr result (IsPossible (plan_exec pid (state_of self.now))) }
    {
        self.processes.exec(pid, effect)
    }

    /// A process begins to ignore a signal, or ceases to. NoProcess; TooMany: no such signal.
    #[inline(never)]
    pub fn sigset(&mut self, pid: u32, signal: u32, ignore: bool, effect: &mut Effect)
        ensures effect { IsEffectBy (plan_sigset pid signal ignore) self.old effect.new }
        ensures world { (place : ℕ) → IsNext place (plan_sigset pid signal ignore) self.old self.new }
    {
        self.processes.sigset(pid, signal, ignore, effect)
    }

    /// A signal is delivered to a process, which changes nothing here. NoProcess; TooMany: no such
    /// signal.
    #[inline(never)]
    pub fn signal(&self, pid: u32, signal: u32, effect: &mut Effect) -> Result<(), Memory>
        ensures effect { OnOk result (IsEffectBy (plan_sig pid signal) self.now effect.new) }
        ensures world { (place : ℕ) → IsNext place (plan_sig pid signal) self.now self.now }
        ensures possible { OnErr result (IsPossible (plan_sig pid signal (state_of self.now))) }
    {
        self.processes.signal(pid, signal, effect)
    }

    /// The clock goes on to a moment in ns, or stays where it is. ClockBack: it would go back, as to any
    /// moment below 0.
    #[tactic(auto, unfolding(kq_model::specs::ProcessPlans::plan_clock_at))]
    pub fn clock(&mut self, moment: i64, effect: &mut Effect)
        ensures effect { IsEffectBy (plan_clock_at moment) self.old effect.new }
        ensures world { (place : ℕ) → IsNext place (plan_clock_at moment) self.old self.new }
    {
        if moment < 0 {
            effect.impossible(self.processes.allocator(), Why::ClockBack);
            return;
        }
        self.go_on(moment as u64, effect)
    }

    // The same for a moment that is not below 0.
    #[tactic(auto, unfolding(kq_model::specs::ProcessPlans::plan_clock))]
    fn go_on(&mut self, moment: u64, effect: &mut Effect)
        requires { moment < 2 ^ 63 }
        ensures effect { IsEffectBy (plan_clock moment) self.old effect.new }
        ensures world { (place : ℕ) → IsNext place (plan_clock moment) self.old self.new }
    {
        let alloc = self.processes.allocator();
        if moment < self.clock {
            effect.impossible(alloc, Why::ClockBack);
            return;
        }
        self.clock = moment;
        effect.quiet(alloc);
    }

    /// A process opens a kqueue, named by the record's place, under a number that is not open
    /// (kqueue(2)). NoProcess; UsedDescriptor: the number is open.
    #[tactic(auto, unfolding(kq_model::specs::DescriptorPlans::plan_kqueue, kq_model::specs::World::named_by))]
    #[inline(never)]
    pub fn kqueue(
        &mut self,
        place: u64,
        pid: u32,
        fd: u32,
        effect: &mut Effect,
    ) -> Result<(), Memory>
        ensures effect { OnOk result (IsEffectBy (plan_kqueue pid fd) self.old effect.new) }
        ensures world { OnOk result (IsNext place (plan_kqueue pid fd) self.old self.new) }
        ensures memory { OnErr result (state_of self.new ≡ state_of self.old) }
        ensures possible { OnErr result (IsPossible (plan_kqueue pid fd (state_of self.old))) }
    {
        let alloc = self.processes.allocator();
        if !self.processes.is_live(pid) {
            effect.impossible(alloc, Why::NoProcess);
            return Ok(());
        }
        if self.processes.named(pid, fd).is_some() {
            effect.impossible(alloc, Why::UsedDescriptor);
            return Ok(());
        }
        let Some(descriptors) = self.descriptors.checked_add(1) else {
            return Err(Memory);
        };
        self.processes.name(pid, fd, Named::Kqueue(place))?;
        self.descriptors = descriptors;
        effect.quiet(alloc);
        Ok(())
    }

    /// A kevent call: whether it is possible. It changes nothing here, and its kqueue is what
    /// `descriptor` gives. NoProcess; NoDescriptor: the number is not open; WrongKind: it names no
    /// kqueue; TooMany: more than 1,024 changes, or room for more than 65,536 events.
    pub fn kevent(&self, pid: u32, fd: u32, changes: &[Change], room: u32, effect: &mut Effect)
        ensures effect { IsEffectBy (plan_kevent pid fd changes.now room) self.now effect.new }
        ensures world { (place : ℕ) → IsNext place (plan_kevent pid fd changes.now room) self.now self.now }
    {
        let alloc = self.processes.allocator();
        match self.processes.call(pid, fd, changes, room) {
            Ok(_) => effect.quiet(alloc),
            Err(why) => effect.impossible(alloc, why),
        }
    }
}
