//! Records of descriptors and pipes, for C.
ghost use Rattle.kq_model.specs.declared.event.Event.TheVariants as event_of;
ghost use Rattle.libkqsim.specs.Steps.{IsNumbered};

use crate::handle::Kqsim;
use crate::record::record;
use kq_model::Event;

/// The record `kqueue`: a process opens a kqueue.
#[unsafe(no_mangle)]
pub extern "C" fn kqsim_kqueue(sim: &mut Kqsim, pid: u32, fd: u32) -> i32
    ensures { IsNumbered (event_of.Kqueue pid fd) sim.old.state sim.new.state result }
{
    record(sim, &Event::Kqueue { pid, fd })
}

/// The record `dup`: `to` names what `fd` names.
#[unsafe(no_mangle)]
pub extern "C" fn kqsim_dup(sim: &mut Kqsim, pid: u32, fd: u32, to: u32) -> i32
    ensures { IsNumbered (event_of.Dup pid fd to) sim.old.state sim.new.state result }
{
    record(sim, &Event::Dup { pid, fd, to })
}

/// The record `close`: a process closes a number.
#[unsafe(no_mangle)]
pub extern "C" fn kqsim_close(sim: &mut Kqsim, pid: u32, fd: u32) -> i32
    ensures { IsNumbered (event_of.Close pid fd) sim.old.state sim.new.state result }
{
    record(sim, &Event::Close { pid, fd })
}

/// The record `pipe`: a process makes a pipe that holds `cap` bytes.
#[unsafe(no_mangle)]
pub extern "C" fn kqsim_pipe(sim: &mut Kqsim, pid: u32, rfd: u32, wfd: u32, cap: u32) -> i32
    ensures { IsNumbered (event_of.Pipe pid rfd wfd cap) sim.old.state sim.new.state result }
{
    record(sim, &Event::Pipe { pid, rfd, wfd, cap })
}

/// The record `read`: a process reads `n` bytes.
#[unsafe(no_mangle)]
pub extern "C" fn kqsim_read(sim: &mut Kqsim, pid: u32, fd: u32, n: u32) -> i32
    ensures { IsNumbered (event_of.Read pid fd n) sim.old.state sim.new.state result }
{
    record(sim, &Event::Read { pid, fd, n })
}

/// The record `write`: a process writes `n` bytes.
#[unsafe(no_mangle)]
pub extern "C" fn kqsim_write(sim: &mut Kqsim, pid: u32, fd: u32, n: u32) -> i32
    ensures { IsNumbered (event_of.Write pid fd n) sim.old.state sim.new.state result }
{
    record(sim, &Event::Write { pid, fd, n })
}
