//! The events of the two seats' calls.

use bitflags::Flags;
use kq_model::notes::NOTE_TRIGGER;
use kq_model::{Change, EvFlags, Event, Filter, Memory, Series};
use std::alloc::Global;

/// The process whose kqueue it is.
const PID: u32 = 1;

/// The number of the kqueue's descriptor.
const FD: u32 = 9;

pub fn process() -> Event {
    Event::Proc { pid: PID }
}

pub fn kqueue() -> Event {
    Event::Kqueue { pid: PID, fd: FD }
}

/// The process adds the user event.
pub fn add(alloc: Global) -> Result<Event, Memory> {
    user(alloc, EvFlags::ADD, 0)
}

/// The process lets the user event happen.
pub fn ring(alloc: Global) -> Result<Event, Memory> {
    user(alloc, EvFlags::empty(), NOTE_TRIGGER)
}

/// A call of kevent(2) with one change of the user event 7, and without room.
fn user(alloc: Global, flags: EvFlags, fflags: u32) -> Result<Event, Memory> {
    let change = Change {
        ident: 7,
        filter: Filter::User,
        flags,
        fflags,
        datum: 0,
        udata: 0,
    };
    let changes = Vec::from_array(alloc, [change]).map_err(|_| Memory)?;
    Ok(Event::Kevent {
        pid: PID,
        fd: FD,
        changes: Series::from_vec(changes),
        room: 0,
    })
}

/// The process asks for one event.
pub fn poll(alloc: Global) -> Event {
    Event::Kevent {
        pid: PID,
        fd: FD,
        changes: Series::from_vec(Vec::new(alloc)),
        room: 1,
    }
}

/// The clock stands where it began.
pub fn moment() -> Event {
    Event::Clock { ns: 0 }
}
