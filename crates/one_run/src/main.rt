//! A whole system as a library: a trace that is made in code, run, and reported.
#![tactic(auto)]

use bitflags::Flags;
use kq_merge::report_text;
use kq_model::notes::NOTE_TRIGGER;
use kq_model::{Change, EvFlags, Event, Filter, Memory, Series, Trace};
use kq_system::System;
use std::alloc::Global;
use std::io;
use std::io::Write;

/// The process whose kqueue it is.
const PID: u32 = 1;

/// The number of the kqueue's descriptor.
const FD: u32 = 3;

/// A call of kevent(2) with one change of the doorbell, or a poll.
fn call(alloc: Global, change: Option<(EvFlags, u32)>, room: u32) -> Result<Event, Memory> {
    let mut changes = Vec::new(alloc);
    if let Some((flags, fflags)) = change {
        let change = Change {
            ident: 7,
            filter: Filter::User,
            flags,
            fflags,
            datum: 0,
            udata: 0,
        };
        changes.push(change).map_err(|_| Memory)?;
    }
    Ok(Event::Kevent {
        pid: PID,
        fd: FD,
        changes: Series::from_vec(changes),
        room,
    })
}

/// A process makes a kqueue and a doorbell in it, rings the doorbell, and polls twice. Its last poll
/// is of a number that is not open.
fn doorbell(alloc: Global) -> Result<Trace, Memory> {
    let ring = EvFlags::from_bits_retain(0);
    let events = [
        Event::Proc { pid: PID },
        Event::Kqueue { pid: PID, fd: FD },
        call(alloc, Some((EvFlags::ADD.union(EvFlags::CLEAR), 0)), 0)?,
        call(alloc, Some((ring, NOTE_TRIGGER)), 0)?,
        call(alloc, None, 4)?,
        call(alloc, None, 4)?,
        Event::Kevent {
            pid: PID,
            fd: FD + 1,
            changes: Series::from_vec(Vec::new(alloc)),
            room: 4,
        },
    ];
    let events = Vec::from_array(alloc, events).map_err(|_| Memory)?;
    Ok(Trace {
        version: 1,
        events: Series::from_vec(events),
    })
}

/// The report of the doorbell's trace.
fn report(alloc: Global) -> Result<Vec<u8>, Memory> {
    let trace = doorbell(alloc)?;
    let rows = System::run(alloc, &trace)?;
    report_text(alloc, rows.as_slice(), trace.events.len() as u64)
}

fn main(rt: HostRuntime) -> io::Result<()> {
    match report(rt.alloc()) {
        Ok(text) => rt.stdout().write_all(text.as_slice()),
        Err(Memory) => println!(rt; "out of memory"),
    }
}
