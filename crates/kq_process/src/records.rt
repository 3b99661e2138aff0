//! The records that are about processes and descriptors alone, not about objects or the clock.

ghost use Rattle.std.specs.Prelude.{◌≡◌, ℕ, OnOk, OnErr};
ghost use Rattle.kq_model.specs.DescriptorPlans.{plan_kevent};
ghost use Rattle.kq_model.specs.ProcessPlans.{plan_proc, plan_exec, plan_sigset, plan_sig};

use crate::effect::Effect;
use crate::processes::Processes;
use kq_model::limits::{MOST_CHANGES, MOST_ROOM};
use kq_model::notes::NOTE_EXEC;
use kq_model::{Change, Hint, Memory, Named, Target, Why};

/// The largest signal; the least is 1.
const MOST_SIGNAL: u32 = 128;

/// SIGCHLD: no knote hears of it while the process ignores it.
const SIGCHLD: u32 = 20;

impl Processes {
    ghost use Rattle.kq_process.specs.Processes.{table_of};
    ghost use Rattle.kq_process.specs.Effects.{IsToldBy, IsAfter, IsPossibleBy, IsUnchanged, IsCallBy};

    /// A process starts. UsedPid: the pid was used before.
    #[tactic(auto, unfolding(kq_model::specs::ProcessPlans::plan_proc))]
    pub fn proc(&mut self, pid: u32, effect: &mut Effect) -> Result<(), Memory>
        ensures effect { OnOk result (IsToldBy (plan_proc pid) self.old effect.new) }
        ensures world { (place : ℕ) → OnOk result (IsAfter place (plan_proc pid) self.old self.new) }
        ensures table { table_of self.new ≡ table_of self.old }
        ensures err { OnErr result (IsUnchanged self.old self.new) }
        ensures possible { OnErr result (IsPossibleBy (plan_proc pid) self.old) }
    {
        let alloc = self.allocator();
        if self.was_used(pid) {
            effect.impossible(alloc, Why::UsedPid);
            return Ok(());
        }
        self.start(pid)?;
        effect.quiet(alloc);
        Ok(())
    }

    /// A process executes another program. NoProcess: the pid names no live process.
    #[tactic(auto, unfolding(kq_model::specs::ProcessPlans::plan_exec))]
    pub fn exec(&self, pid: u32, effect: &mut Effect) -> Result<(), Memory>
        ensures effect { OnOk result (IsToldBy (plan_exec pid) self.now effect.new) }
        ensures possible { OnErr result (IsPossibleBy (plan_exec pid) self.now) }
    {
        let alloc = self.allocator();
        if !self.is_live(pid) {
            effect.impossible(alloc, Why::NoProcess);
            return Ok(());
        }
        effect.told(alloc, Target::Process(pid), Hint::Note(NOTE_EXEC))
    }

    /// A process begins to ignore a signal, or ceases to. NoProcess; TooMany: no such signal.
    #[tactic(auto, unfolding(kq_model::specs::ProcessPlans::plan_sigset, kq_model::specs::ProcessPlans::is_signal))]
    pub fn sigset(&mut self, pid: u32, signal: u32, ignore: bool, effect: &mut Effect)
        ensures effect { IsToldBy (plan_sigset pid signal ignore) self.old effect.new }
        ensures world { (place : ℕ) → IsAfter place (plan_sigset pid signal ignore) self.old self.new }
        ensures table { table_of self.new ≡ table_of self.old }
    {
        let alloc = self.allocator();
        if !self.is_live(pid) {
            effect.impossible(alloc, Why::NoProcess);
            return;
        }
        if signal < 1 || signal > MOST_SIGNAL {
            effect.impossible(alloc, Why::TooMany);
            return;
        }
        self.dispose(pid, signal, ignore);
        effect.quiet(alloc);
    }

    /// A signal is delivered to a process. A knote hears of it also where the process ignores it,
    /// but for SIGCHLD (kqueue(2)). NoProcess; TooMany: no such signal.
    #[tactic(auto, unfolding(kq_model::specs::ProcessPlans::plan_sig, kq_model::specs::ProcessPlans::is_signal))]
    pub fn signal(&self, pid: u32, signal: u32, effect: &mut Effect) -> Result<(), Memory>
        ensures effect { OnOk result (IsToldBy (plan_sig pid signal) self.now effect.new) }
        ensures possible { OnErr result (IsPossibleBy (plan_sig pid signal) self.now) }
    {
        let alloc = self.allocator();
        if !self.is_live(pid) {
            effect.impossible(alloc, Why::NoProcess);
            return Ok(());
        }
        if signal < 1 || signal > MOST_SIGNAL {
            effect.impossible(alloc, Why::TooMany);
            return Ok(());
        }
        if signal == SIGCHLD && self.ignores(pid, signal) {
            effect.quiet(alloc);
            return Ok(());
        }
        effect.told(alloc, Target::Signal { pid, signal }, Hint::Delivered)
    }

    /// The kqueue of a kevent call, by the place of the record that made it. It takes no memory.
    /// NoProcess; NoDescriptor: the number is not open; WrongKind: it names no kqueue; TooMany:
    /// more than 1,024 changes, or room for more than 65,536 events.
    #[tactic(auto, unfolding(crate::proofs::Unfolded::calling))]
    pub fn call(&self, pid: u32, fd: u32, changes: &[Change], room: u32) -> Result<u64, Why>
        ensures { IsCallBy (plan_kevent pid fd changes.now room) self.now changes.now room result }
    {
        match self.on(pid, fd) {
            Err(why) => Err(why),
            Ok(Named::Kqueue(kqueue)) => {
                if changes.len() > MOST_CHANGES || room > MOST_ROOM {
                    return Err(Why::TooMany);
                }
                Ok(kqueue)
            }
            Ok(_) => Err(Why::WrongKind),
        }
    }
}
