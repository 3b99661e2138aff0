//! All processes by pid: how they start, fork and exit, and what their numbers name.

ghost use Rattle.std.specs.Prelude.{◌≡◌, ℕ, ◌==◌, ◌∷◌, ◌≤◌, [], true, false, None};
ghost use Rattle.std.specs.Prelude.{Some, IfOk, OnOk, OnErr};
ghost use Rattle.kq_model.specs.Limits.{most_signal};
ghost use Rattle.kq_model.specs.Descriptors.{named_among, with_descriptor, with_descriptors, without_closed};
ghost use Rattle.kq_model.specs.declared.object.Named.{Named as NamedObject};
ghost use Rattle.kq_model.specs.DescriptorPlans.{closes, on_descriptor};
ghost use Rattle.kq_model.specs.Objects.{Objects, counted};
ghost use Rattle.kq_model.specs.ProcessPlans.{descriptors_of, pairs_of, inherited};
ghost use Rattle.kq_model.specs.Processes.{was_used, is_live, process_of, ignores_none, ignored_by};
ghost use Rattle.kq_model.specs.Processes.{with_process, without_process, with_disposition};
ghost use Rattle.kq_model.specs.World.{process_view, Planned};
ghost use Rattle.kq_process.specs.Slots.{filled};

use crate::descriptors::Descriptors;
use crate::ignored::Ignored;
use crate::process::Process;
use crate::shelf::Shelf;
use kq_model::{Memory, Named, View, Why};
use std::alloc::Global;
use std::mem;

/// The processes that ever were, by their pids, and what their descriptors name.
#[derive(Drop)]
pub struct Processes {
    shelf: Shelf<Process>,
    alloc: Global,
}

impl Processes {
    ghost use Rattle.kq_process.specs.Processes.{processes_of, table_of, descriptors_in};
    ghost use Rattle.kq_process.specs.Processes.{descriptor_in, descriptor_there, AreOnce};
    ghost use Rattle.kq_process.specs.Effects.{planned_on, world_with};

    pub fn new(alloc: Global) -> Self
        ensures processes { processes_of result ≡ [] }
        ensures table { table_of result ≡ [] }
    {
        Processes {
            shelf: Shelf::new(alloc),
            alloc,
        }
    }

    pub(crate) fn allocator(&self) -> Global {
        self.alloc
    }

    /// Whether the pid was ever used.
    pub fn was_used(&self, pid: u32) -> bool
        ensures { result ≡ was_used pid (processes_of self.now) }
    {
        self.shelf.get(pid).is_some()
    }

    pub fn is_live(&self, pid: u32) -> bool
        ensures { result ≡ is_live pid (processes_of self.now) }
    {
        match self.shelf.get(pid) {
            Some(process) => process.exited.is_none(),
            None => false,
        }
    }

    /// What a PROC filter sees; a process keeps it once it has exited.
    pub fn view(&self, pid: u32) -> Option<View>
        ensures { result ≡ process_view (process_of pid (processes_of self.now)) }
    {
        let process = self.shelf.get(pid)?;
        Some(View::Process {
            exited: process.exited,
        })
    }

    pub fn ignores(&self, pid: u32, signal: u32) -> bool
        ensures { result ≡ ignored_by (process_of pid (processes_of self.now)) signal }
    {
        match self.shelf.get(pid) {
            Some(process) => process.ignored.contains(signal),
            None => false,
        }
    }

    /// What an open descriptor names.
    pub fn named(&self, pid: u32, number: u32) -> Option<Named>
        ensures named { result ≡ named_among pid number (table_of self.now) }
        ensures once { AreOnce (descriptor_there pid number result) (table_of self.now) }
    {
        let process = self.shelf.get(pid)?;
        process.descriptors.get(number)
    }

    /// What an open descriptor of a live process names. NoProcess; NoDescriptor: the number is not open.
    #[inline(always)]
    pub fn on(&self, pid: u32, number: u32) -> Result<Named, Why>
        ensures planned { (planned : NamedObject → Planned) (o : Objects counted) (now : ℕ) →
            on_descriptor pid number planned (world_with self.now o now) ≡ planned_on planned result }
        ensures live { OnOk result (is_live pid (processes_of self.now) ≡ true) }
        ensures named { IfOk result (λ named. named_among pid number (table_of self.now) ≡ Some named) }
        ensures once { IfOk result (λ named. AreOnce (descriptor_in pid (number, named) ∷ []) (table_of self.now)) }
    {
        match self.shelf.get(pid) {
            None => Err(Why::NoProcess),
            Some(process) => {
                if process.exited.is_some() {
                    return Err(Why::NoProcess);
                }
                match process.descriptors.get(number) {
                    Some(named) => Ok(named),
                    None => Err(Why::NoDescriptor),
                }
            }
        }
    }

    /// The slots of a process's numbers, in rising order of these, where what is not open is empty;
    /// none where there is no such process.
    pub fn descriptors(&self, pid: u32) -> &[(u32, Option<Named>)]
        ensures all { descriptors_in pid (filled result.now) ≡ descriptors_of pid (table_of self.now) }
        ensures once { AreOnce (descriptors_of pid (table_of self.now)) (table_of self.now) }
    {
        match self.shelf.get(pid) {
            Some(process) => process.descriptors.slots(),
            None => &[],
        }
    }

    /// A process starts, with no descriptors and no ignored signals.
    pub fn start(&mut self, pid: u32) -> Result<(), Memory>
        requires { was_used pid (processes_of self.old) ≡ false }
        ensures processes { OnOk result (processes_of self.new
            ≡ with_process (Some (record { pid = pid; ignores = ignores_none })) (processes_of self.old)) }
        ensures table { table_of self.new ≡ table_of self.old }
        ensures err { OnErr result (processes_of self.new ≡ processes_of self.old) }
    {
        let process = Process {
            exited: None,
            descriptors: Descriptors::new(self.alloc),
            ignored: Ignored::nothing(),
        };
        self.shelf.insert(pid, process)
    }

    /// A child starts, with copies of its parent's descriptors and ignored signals, but no kqueues.
    pub fn fork(&mut self, pid: u32, child: u32) -> Result<(), Memory>
        requires live { is_live pid (processes_of self.old) ≡ true }
        requires unused { was_used child (processes_of self.old) ≡ false }
        ensures processes { let ignores = ignored_by (process_of pid (processes_of self.old)) in
            OnOk result (processes_of self.new
            ≡ with_process (Some (record { pid = child; ignores = ignores })) (processes_of self.old)) }
        ensures table { OnOk result (table_of self.new
            ≡ with_descriptors (inherited pid child (table_of self.old)) (table_of self.old)) }
        ensures copies { OnOk result (descriptors_of child (table_of self.new)
            ≡ inherited pid child (table_of self.old)) }
        ensures err_processes { OnErr result (processes_of self.new ≡ processes_of self.old) }
        ensures err_table { OnErr result (table_of self.new ≡ table_of self.old) }
    {
        let Some(parent) = self.shelf.get(pid) else {
            unreachable!()
        };
        let process = Process {
            exited: None,
            descriptors: parent.descriptors.inheritable(self.alloc)?,
            ignored: parent.ignored,
        };
        self.shelf.insert(child, process)
    }

    /// A process exits: all its descriptors are closed, and given back.
    pub fn exit(&mut self, pid: u32, status: u32) -> Descriptors
        requires { is_live pid (processes_of self.old) ≡ true }
        ensures processes { processes_of self.new
            ≡ without_process (Some (record { pid = pid; status = status })) (processes_of self.old) }
        ensures table { table_of self.new
            ≡ without_closed (pairs_of (descriptors_of pid (table_of self.old))) (table_of self.old) }
        ensures closed { descriptors_in pid result ≡ descriptors_of pid (table_of self.old) }
    {
        let none = Descriptors::new(self.alloc);
        let Some(process) = self.shelf.get_mut(pid) else {
            unreachable!()
        };
        process.exited = Some(status);
        mem::replace(&mut process.descriptors, none)
    }

    /// A process begins to ignore a signal, or ceases to.
    pub fn dispose(&mut self, pid: u32, signal: u32, ignore: bool)
        requires live { is_live pid (processes_of self.old) ≡ true }
        requires signal { signal ≤ most_signal }
        ensures processes { processes_of self.new
            ≡ with_disposition (Some (record { pid = pid; signal = signal; ignore = ignore }))
            (processes_of self.old) }
        ensures table { table_of self.new ≡ table_of self.old }
    {
        let Some(process) = self.shelf.get_mut(pid) else {
            unreachable!()
        };
        process.ignored.set(signal, ignore);
    }

    /// Closes a number, where it is open, and gives what it named.
    pub fn close(&mut self, pid: u32, number: u32) -> Option<Named>
        ensures named { result ≡ named_among pid number (table_of self.old) }
        ensures table { table_of self.new
            ≡ without_closed (record { pid = pid; number = number } ∷ []) (table_of self.old) }
        ensures processes { processes_of self.new ≡ processes_of self.old }
    {
        let process = self.shelf.get_mut(pid)?;
        process.descriptors.remove(number)
    }

    /// The number names this from now on. Where it is open it is closed before.
    pub fn name(&mut self, pid: u32, number: u32, named: Named) -> Result<(), Memory>
        requires { is_live pid (processes_of self.old) ≡ true }
        ensures table { let closed = closes pid number (named_among pid number (table_of self.old)) in
            OnOk result (table_of self.new
            ≡ with_descriptor (descriptor_in pid (number, named)) (without_closed closed (table_of self.old))) }
        ensures processes { processes_of self.new ≡ processes_of self.old }
        ensures err { OnErr result (table_of self.new ≡ table_of self.old) }
    {
        let Some(process) = self.shelf.get_mut(pid) else {
            unreachable!()
        };
        process.descriptors.insert(number, named)
    }

    /// Two numbers that are not open name these from now on.
    pub fn name_both(
        &mut self,
        pid: u32,
        first: (u32, Named),
        second: (u32, Named),
    ) -> Result<(), Memory>
        requires live { is_live pid (processes_of self.old) ≡ true }
        requires first { named_among pid first.0 (table_of self.old) ≡ None }
        requires second { named_among pid second.0 (table_of self.old) ≡ None }
        requires differ { (first.0 == second.0) ≡ false }
        ensures table { OnOk result (table_of self.new
            ≡ with_descriptors (descriptor_in pid first ∷ descriptor_in pid second ∷ []) (table_of self.old)) }
        ensures processes { processes_of self.new ≡ processes_of self.old }
        ensures err { OnErr result (table_of self.new ≡ table_of self.old) }
    {
        self.name(pid, first.0, first.1)?;
        if let Err(memory) = self.name(pid, second.0, second.1) {
            let _ = self.close(pid, first.0);
            return Err(memory);
        }
        Ok(())
    }
}
