//! Traces on a live system: by one thread, by several, and where a start is refused.
use crate::gates::{Pair, Without};
use crate::given::{FORKED, REPORT, STORED};
use kq_live::Book;
use kq_merge::report_text;
use kq_model::Memory;
use kq_run::{Fault, book_text, live_report, live_run, live_run_with, replay};
use kq_threads::{Always, Open};
use kq_trace::{read_trace, write_trace};
use std::alloc::Global;
use std::test::Fail;

#[test]
fn one_thread_reports_what_a_replay_does(rt: HostRuntime) -> Result<(), Fail> {
    let mut report = Vec::new(rt.alloc());
    live_report(&rt, STORED.as_bytes(), 1, &mut report)?;
    assert!(rt; report.as_slice() == REPORT.as_bytes());
    Ok(())
}

const TWO_PROCESSES: &str = concat!(
    "{\"kqsim\":1}\n",
    "{\"op\":\"proc\",\"pid\":1}\n",
    "{\"op\":\"proc\",\"pid\":2}\n",
);

#[test]
fn the_book_of_one_thread_is_the_trace(rt: HostRuntime) -> Result<(), Fail> {
    let text = book_text(&rt, TWO_PROCESSES.as_bytes(), 1)?;
    assert!(rt; text.as_slice() == TWO_PROCESSES.as_bytes());
    Ok(())
}

#[test]
fn a_refused_start_is_spawn(rt: HostRuntime) -> Result<(), Fail> {
    let trace = read_trace(&rt, FORKED.as_bytes())?;
    let refused = live_run_with(&rt, &trace, 2, &Open, &Without(1));
    assert!(rt; matches!(refused, Err(Fault::Spawn)));
    Ok(())
}

/// The first places of the two processes are held, each until the other was entered.
#[test]
fn two_threads_are_inside_at_once(rt: HostRuntime) -> Result<(), Fail> {
    let trace = read_trace(&rt, FORKED.as_bytes())?;
    let gate = Pair::new([1, 8]);
    let book = live_run_with(&rt, &trace, 2, &gate, &Always)?;
    assert_eq!(rt; (book.len(), gate.was_held()), (17, true));
    Ok(())
}

/// The lines of a trace in which this stands.
fn lines_with(alloc: Global, text: &[u8], part: &str) -> Result<Vec<u8>, Fail> {
    let text = str::from_utf8(text).map_err(|_| "no text")?;
    let mut lines = String::new(alloc);
    for line in text.split('\n') {
        if line.contains(part) {
            writeln!(lines, "{line}")?;
        }
    }
    Ok(lines.into_bytes())
}

/// The report of a book's rows.
fn report_of(alloc: Global, book: &Book) -> Result<Vec<u8>, Memory> {
    let rows = book.rows()?;
    report_text(alloc, rows.as_slice(), book.len() as u64)
}

#[test]
fn the_book_of_two_threads_merges_their_records(rt: HostRuntime) -> Result<(), Fail> {
    let trace = read_trace(&rt, FORKED.as_bytes())?;
    let given = write_trace(rt.alloc(), &trace)?;
    let book = live_run(&rt, &trace, 2)?;
    let made = write_trace(rt.alloc(), &book.trace()?)?;
    assert_eq!(rt; (book.len(), made.len()), (17, given.len()));
    for process in ["\"pid\":1", "\"pid\":2"] {
        let lines = lines_with(rt.alloc(), made.as_slice(), process)?;
        let expected = lines_with(rt.alloc(), given.as_slice(), process)?;
        assert!(rt; lines.as_slice() == expected.as_slice(), "{process}");
    }
    let report = report_of(rt.alloc(), &book)?;
    for workers in [1, 2] {
        let replayed = replay(&rt, made.as_slice(), workers)?;
        assert!(rt; replayed.as_slice() == report.as_slice(), "by {workers}");
    }
    Ok(())
}
