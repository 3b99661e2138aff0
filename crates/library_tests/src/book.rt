//! That the rows of a book come when its trace is replayed kqueue by kqueue, which no clause says.
use bitflags::Flags;
use kq_live::{Book, live_run};
use kq_merge::report_text;
use kq_model::{Change, EvFlags, Event, Filter, Memory, Row, Series, Trace};
use kq_projection::RunFault;
use kq_threads::{Always, Open};
use replayed_book::replayed_rows;
use std::alloc::Global;
use std::process::Abort;
use std::sync::Wait;
use std::test::Fail;
use std::thread::Threads;

/// NOTE_TRIGGER of kqueue(2): the user event happens now.
const TRIGGER: u32 = 0x0100_0000;

/// Two kqueues, each polled once. The last record is impossible.
const REPORT: &str = concat!(
    "{\"at\":5,\"events\":[]}\n",
    "{\"at\":6,\"events\":[]}\n",
    "{\"at\":7,\"events\":[{\"data\":0,\"fflags\":0,\"filter\":\"USER\",\"flags\":[],\"ident\":7,\"udata\":2}]}\n",
    "{\"at\":8,\"events\":[{\"data\":0,\"fflags\":0,\"filter\":\"USER\",\"flags\":[],\"ident\":7,\"udata\":1}]}\n",
    "{\"at\":9,\"impossible\":\"UsedPid\"}\n",
    "{\"calls\":4,\"events\":2,\"records\":9}\n",
);

/// A call of kevent(2) by a process, whose kqueue has the number 9.
fn call(pid: u32, changes: Vec<Change>, room: u32) -> Event {
    Event::Kevent {
        pid,
        fd: 9,
        changes: Series::from_vec(changes),
        room,
    }
}

/// The process adds a user event that has happened.
fn add(alloc: Global, pid: u32) -> Result<Event, Memory> {
    let change = Change {
        ident: 7,
        filter: Filter::User,
        flags: EvFlags::ADD,
        fflags: TRIGGER,
        datum: 0,
        udata: u64::from(pid),
    };
    let changes = Vec::from_array(alloc, [change]).map_err(|_| Memory)?;
    Ok(call(pid, changes, 0))
}

/// Two processes with a kqueue each, of which each is told of an event, and a process that is there already.
fn two_processes(alloc: Global) -> Result<Trace, Memory> {
    let one = add(alloc, 1)?;
    let two = add(alloc, 2)?;
    let events = [
        Event::Proc { pid: 1 },
        Event::Proc { pid: 2 },
        Event::Kqueue { pid: 1, fd: 9 },
        Event::Kqueue { pid: 2, fd: 9 },
        one,
        two,
        call(2, Vec::new(alloc), 1),
        call(1, Vec::new(alloc), 1),
        Event::Proc { pid: 1 },
    ];
    let events = Vec::from_array(alloc, events).map_err(|_| Memory)?;
    Ok(Trace {
        version: 1,
        events: Series::from_vec(events),
    })
}

/// Whether the report of these rows is the one above.
fn are_reported(alloc: Global, rows: &[Row]) -> Result<bool, Memory> {
    let report = report_text(alloc, rows, 9)?;
    Ok(report.as_slice() == REPORT.as_bytes())
}

/// Whether that is the report of the book's rows, replayed by so many workers.
fn is_replayed<R: AllocGlobal + Threads + Wait + Sync>(
    rt: &R,
    book: &Book,
    workers: u32,
) -> Result<bool, RunFault> {
    let rows = replayed_rows(rt, book, workers)?;
    Ok(are_reported(rt.alloc(), rows.as_slice())?)
}

fn assert_replayed<R: Abort + AllocGlobal + Threads + Wait + Sync>(rt: &R, book: &Book) {
    for workers in [1, 2, 256] {
        assert!(rt; is_replayed(rt, book, workers) == Ok(true), "by {workers}");
    }
    for workers in [0, 257] {
        assert!(rt;
            is_replayed(rt, book, workers) == Err(RunFault::Workers),
            "by {workers}"
        );
    }
}

#[test]
fn a_book_replays_to_its_rows(rt: HostRuntime) -> Result<(), Fail> {
    let trace = two_processes(rt.alloc())?;
    let book = live_run(&rt, rt.alloc(), &Open, &Always, &trace, 1)?;
    assert_replayed(&rt, &book);
    Ok(())
}
