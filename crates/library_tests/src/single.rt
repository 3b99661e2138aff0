//! Single calls of the libraries.
use bitflags::Flags;
use kq_kevent::Kq;
use kq_knote::{Knote, Knotes, Tally};
use kq_model::notes::{NOTE_EXIT, NOTE_TRACK};
use kq_model::{
    Act, Change, Errno, EvFlags, Event, Filter, Kevent, Key, Memory, Reply, Row, Series, Version,
};
use kq_objects::Objects;
use kq_process::World;
use kq_timer::Period;
use std::alloc::Global;
use std::test::Fail;

/// The nanoseconds of a period, or why there is none.
fn period(datum: i64, fflags: u32) -> Result<u64, Errno> {
    let period = Period::new(datum, fflags)?;
    Ok(period.nanoseconds())
}

#[test]
fn a_period_has_one_unit_and_a_bound(rt: HostRuntime) {
    assert!(rt; period(3, 0) == Ok(3_000_000));
    assert!(rt; period(1, 3) == Err(Errno::EINVAL));
    assert!(rt; period(9_223_372_037, 1) == Err(Errno::EINVAL));
}

/// The first call of the stored run.
fn added(alloc: Global) -> Result<Event, Memory> {
    let change = Change {
        ident: 7,
        filter: Filter::User,
        flags: EvFlags::ADD,
        fflags: 5,
        datum: 0,
        udata: 0,
    };
    let changes = Vec::from_array(alloc, [change]).map_err(|_| Memory)?;
    Ok(Event::Kevent {
        pid: 1,
        fd: 9,
        changes: Series::from_vec(changes),
        room: 4,
    })
}

/// Whether that is the first call of the stored run.
fn is_added(event: &Event) -> bool {
    match event {
        Event::Kevent {
            pid: 1,
            fd: 9,
            changes,
            room: 4,
        } => match changes.as_slice() {
            [change] => (change.ident, change.fflags) == (7, 5) && change.filter == Filter::User,
            _ => false,
        },
        _ => false,
    }
}

/// The answer to the third call of the stored run.
fn told(alloc: Global) -> Result<Reply, Memory> {
    let event = Kevent {
        ident: 7,
        filter: Filter::User,
        flags: EvFlags::from_bits_retain(0),
        fflags: 5,
        datum: 0,
        udata: 0,
    };
    let events = Vec::from_array(alloc, [event]).map_err(|_| Memory)?;
    Ok(Reply::Events(Series::from_vec(events)))
}

/// Whether that is the answer to the third call of the stored run.
fn is_told(reply: &Reply) -> bool {
    match reply {
        Reply::Events(events) => match events.as_slice() {
            [event] => (event.ident, event.fflags) == (7, 5) && event.filter == Filter::User,
            _ => false,
        },
        _ => false,
    }
}

#[test]
fn copies_are_equal(rt: HostRuntime) -> Result<(), Fail> {
    let event = added(rt.alloc())?.copy()?;
    assert!(rt; is_added(&event));
    let reply = told(rt.alloc())?;
    let copy = reply.copy()?;
    assert!(rt; is_told(&copy));
    let row = Row { at: 5, reply }.copy()?;
    assert!(rt; row.at == 5 && is_told(&row.reply));
    Ok(())
}

#[test]
fn a_socket_is_planned(rt: HostRuntime) -> Result<(), Fail> {
    let mut objects = Objects::new(rt.alloc())?;
    let act = Act::Socket {
        receive_buffer: 100,
        send_buffer: 100,
    };
    assert!(rt; objects.plan(3, &act).is_ok());
    Ok(())
}

/// A knote of the user event 7.
fn doorbell() -> Knote {
    Knote {
        key: Key {
            ident: 7,
            filter: Filter::User,
        },
        target: None,
        datum: 0,
        udata: 8,
        fflags: 0,
        notice: None,
        triggered: false,
        oneshot: false,
        clear: true,
        dispatch: false,
        enabled: true,
        active: false,
        bits: 5,
        tally: Tally::empty(),
        start: 0,
        period: 0,
    }
}

#[test]
fn a_knote_is_found(rt: HostRuntime) -> Result<(), Fail> {
    let mut knotes = Knotes::new(rt.alloc());
    knotes.reserve(1)?;
    let knote = doorbell();
    let _ = knotes.attach(knote);
    let found = knotes.get(knote.key).ok_or("a knote")?;
    assert_eq!(rt; (found.udata, found.bits, found.clear), (8, 5, true));
    Ok(())
}

/// A kqueue of process 1 that follows the children of process 2.
fn following(alloc: Global) -> Result<(Kq, Reply), Memory> {
    let mut world = World::new(alloc)?;
    world.apply(1, &Event::Proc { pid: 1 })?;
    world.apply(2, &Event::Proc { pid: 2 })?;
    let change = Change {
        ident: 2,
        filter: Filter::Proc,
        flags: EvFlags::ADD,
        fflags: NOTE_EXIT | NOTE_TRACK,
        datum: 0,
        udata: 0,
    };
    let mut kqueue = Kq::in_version(alloc, 1, Version::new(2));
    let reply = kqueue.call(&[change], 0, &world)?;
    Ok((kqueue, reply))
}

#[test]
fn there_is_room_for_a_child(rt: HostRuntime) -> Result<(), Fail> {
    let (mut kqueue, reply) = following(rt.alloc())?;
    assert!(rt; matches!(reply, Reply::Events(_)));
    kqueue.reserve_fork(2)?;
    assert!(rt; kqueue.room() > 0);
    Ok(())
}
