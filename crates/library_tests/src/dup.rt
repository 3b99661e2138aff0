//! A number that three kqueues watch, two of its process and one of its child.
use kq_model::{Change, EvFlags, Event, Filter, Memory, Series, Trace};
use std::alloc::Global;

/// A change list of one READ of number 3.
fn read(alloc: Global, flags: EvFlags) -> Result<Series<Change>, Memory> {
    let mut changes = Vec::new(alloc);
    let change = Change {
        ident: 3,
        filter: Filter::Read,
        flags,
        fflags: 0,
        datum: 0,
        udata: 0,
    };
    changes.push(change).map_err(|_| Memory)?;
    Ok(Series::from_vec(changes))
}

fn kqueue(pid: u32, fd: u32) -> Event {
    Event::Kqueue { pid, fd }
}

fn socket(fd: u32) -> Event {
    Event::Socket {
        pid: 1,
        fd,
        rcv: 100,
        snd: 100,
    }
}

/// A call that reads number 3 from now on, or no more.
fn reads(alloc: Global, pid: u32, fd: u32, flags: EvFlags, room: u32) -> Result<Event, Memory> {
    Ok(Event::Kevent {
        pid,
        fd,
        changes: read(alloc, flags)?,
        room,
    })
}

/// A call for one event.
fn poll(alloc: Global, pid: u32, fd: u32) -> Event {
    Event::Kevent {
        pid,
        fd,
        changes: Series::from_vec(Vec::new(alloc)),
        room: 1,
    }
}

/// A trace in which another socket takes the number in its process, when all three watch it.
pub fn dup_over(alloc: Global) -> Result<Trace, Memory> {
    let one = reads(alloc, 1, 9, EvFlags::ADD, 0)?;
    let two = reads(alloc, 1, 10, EvFlags::ADD, 0)?;
    let of_the_child = reads(alloc, 2, 9, EvFlags::ADD, 0)?;
    let no_more = reads(alloc, 1, 9, EvFlags::DELETE, 1)?;
    let events = [
        Event::Proc { pid: 1 },
        kqueue(1, 9),
        kqueue(1, 10),
        socket(3),
        Event::Connect { pid: 1, fd: 3 },
        socket(5),
        Event::Fork { pid: 1, child: 2 },
        kqueue(2, 9),
        one,
        two,
        of_the_child,
        Event::Rx {
            pid: 1,
            fd: 3,
            n: 1,
        },
        Event::Dup {
            pid: 1,
            fd: 5,
            to: 3,
        },
        poll(alloc, 1, 9),
        poll(alloc, 1, 10),
        poll(alloc, 2, 9),
        no_more,
    ];
    let events = Vec::from_array(alloc, events).map_err(|_| Memory)?;
    Ok(Trace {
        version: 1,
        events: Series::from_vec(events),
    })
}
