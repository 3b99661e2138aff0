//! Records of processes, signals and the clock, for C.
ghost use Rattle.kq_model.specs.declared.event.Event.TheVariants as event_of;
ghost use Rattle.libkqsim.specs.Steps.{IsNumbered};

use crate::handle::Kqsim;
use crate::record::record;
use kq_model::Event;

/// The record `proc`: a process starts.
#[unsafe(no_mangle)]
pub extern "C" fn kqsim_proc(sim: &mut Kqsim, pid: u32) -> i32
    ensures { IsNumbered (event_of.Proc pid) sim.old.state sim.new.state result }
{
    record(sim, &Event::Proc { pid })
}

/// The record `fork`: a process makes a child.
#[unsafe(no_mangle)]
pub extern "C" fn kqsim_fork(sim: &mut Kqsim, pid: u32, child: u32) -> i32
    ensures { IsNumbered (event_of.Fork pid child) sim.old.state sim.new.state result }
{
    record(sim, &Event::Fork { pid, child })
}

/// The record `exec`: a process runs another program.
#[unsafe(no_mangle)]
pub extern "C" fn kqsim_exec(sim: &mut Kqsim, pid: u32) -> i32
    ensures { IsNumbered (event_of.Exec pid) sim.old.state sim.new.state result }
{
    record(sim, &Event::Exec { pid })
}

/// The record `exit`: a process ends.
#[unsafe(no_mangle)]
pub extern "C" fn kqsim_exit(sim: &mut Kqsim, pid: u32, status: u32) -> i32
    ensures { IsNumbered (event_of.Exit pid status) sim.old.state sim.new.state result }
{
    record(sim, &Event::Exit { pid, status })
}

/// The record `sigset`: a process begins or ends to ignore a signal.
#[unsafe(no_mangle)]
pub extern "C" fn kqsim_sigset(sim: &mut Kqsim, pid: u32, sig: u32, ignore: bool) -> i32
    ensures { IsNumbered (event_of.Sigset pid sig ignore) sim.old.state sim.new.state result }
{
    record(sim, &Event::Sigset { pid, sig, ignore })
}

/// The record `sig`: a signal is sent to a process.
#[unsafe(no_mangle)]
pub extern "C" fn kqsim_sig(sim: &mut Kqsim, pid: u32, sig: u32) -> i32
    ensures { IsNumbered (event_of.Sig pid sig) sim.old.state sim.new.state result }
{
    record(sim, &Event::Sig { pid, sig })
}

/// The record `clock`: the clock goes on to a moment, in nanoseconds.
#[unsafe(no_mangle)]
pub extern "C" fn kqsim_clock(sim: &mut Kqsim, ns: i64) -> i32
    ensures { IsNumbered (event_of.Clock ns) sim.old.state sim.new.state result }
{
    record(sim, &Event::Clock { ns })
}
