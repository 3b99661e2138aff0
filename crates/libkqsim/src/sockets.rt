//! Records of sockets, for C.
ghost use Rattle.kq_freebsd.specs.Numbers.{side_of_number};
ghost use Rattle.kq_model.specs.declared.event.Event.TheVariants as event_of;
ghost use Rattle.libkqsim.specs.Steps.{IsChosen, IsNumbered};

use crate::handle::Kqsim;
use crate::record::{no_argument, record};
use kq_freebsd::side_numbered;
use kq_model::Event;

/// The record `socket`: a process makes a socket with buffers of these sizes.
#[unsafe(no_mangle)]
pub extern "C" fn kqsim_socket(sim: &mut Kqsim, pid: u32, fd: u32, rcv: u32, snd: u32) -> i32
    ensures { IsNumbered (event_of.Socket pid fd rcv snd) sim.old.state sim.new.state result }
{
    record(sim, &Event::Socket { pid, fd, rcv, snd })
}

/// The record `listen`: a socket takes connections.
#[unsafe(no_mangle)]
pub extern "C" fn kqsim_listen(sim: &mut Kqsim, pid: u32, fd: u32, backlog: u32) -> i32
    ensures { IsNumbered (event_of.Listen pid fd backlog) sim.old.state sim.new.state result }
{
    record(sim, &Event::Listen { pid, fd, backlog })
}

/// The record `arrive`: a connection arrives at a listening socket.
#[unsafe(no_mangle)]
pub extern "C" fn kqsim_arrive(sim: &mut Kqsim, pid: u32, fd: u32) -> i32
    ensures { IsNumbered (event_of.Arrive pid fd) sim.old.state sim.new.state result }
{
    record(sim, &Event::Arrive { pid, fd })
}

/// The record `accept`: a connection that waits becomes the socket `to`.
#[unsafe(no_mangle)]
pub extern "C" fn kqsim_accept(
    sim: &mut Kqsim,
    pid: u32,
    fd: u32,
    to: u32,
    rcv: u32,
    snd: u32,
) -> i32
    ensures { IsNumbered (event_of.Accept pid fd to rcv snd) sim.old.state sim.new.state result }
{
    record(
        sim,
        &Event::Accept {
            pid,
            fd,
            to,
            rcv,
            snd,
        },
    )
}

/// The record `connect`: a socket is connected.
#[unsafe(no_mangle)]
pub extern "C" fn kqsim_connect(sim: &mut Kqsim, pid: u32, fd: u32) -> i32
    ensures { IsNumbered (event_of.Connect pid fd) sim.old.state sim.new.state result }
{
    record(sim, &Event::Connect { pid, fd })
}

/// The record `rx`: `n` bytes come from the peer of a socket.
#[unsafe(no_mangle)]
pub extern "C" fn kqsim_rx(sim: &mut Kqsim, pid: u32, fd: u32, n: u32) -> i32
    ensures { IsNumbered (event_of.Rx pid fd n) sim.old.state sim.new.state result }
{
    record(sim, &Event::Rx { pid, fd, n })
}

/// The record `tx`: `n` bytes of a socket's send buffer go to its peer.
#[unsafe(no_mangle)]
pub extern "C" fn kqsim_tx(sim: &mut Kqsim, pid: u32, fd: u32, n: u32) -> i32
    ensures { IsNumbered (event_of.Tx pid fd n) sim.old.state sim.new.state result }
{
    record(sim, &Event::Tx { pid, fd, n })
}

/// The record `shut`: a side of a socket is shut, 0 to read or 1 to write, with an error number or 0.
#[unsafe(no_mangle)]
pub extern "C" fn kqsim_shut(sim: &mut Kqsim, pid: u32, fd: u32, side: u32, error: u32) -> i32
    ensures { IsChosen (side_of_number side)
        (λ side. event_of.Shut pid fd side error) sim.old.state sim.new.state result }
{
    match side_numbered(side) {
        Some(side) => record(
            sim,
            &Event::Shut {
                pid,
                fd,
                side,
                error,
            },
        ),
        None => no_argument(),
    }
}

/// The record `lowat`: the low-water mark of a side of a socket, 0 to read or 1 to write.
#[unsafe(no_mangle)]
pub extern "C" fn kqsim_lowat(sim: &mut Kqsim, pid: u32, fd: u32, side: u32, n: u32) -> i32
    ensures { IsChosen (side_of_number side)
        (λ side. event_of.Lowat pid fd side n) sim.old.state sim.new.state result }
{
    match side_numbered(side) {
        Some(side) => record(sim, &Event::Lowat { pid, fd, side, n }),
        None => no_argument(),
    }
}
