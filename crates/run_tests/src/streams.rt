//! What happens where a reader has no end, and where a writer fails midway.
ghost use Rattle.kq_run.specs.Workers.{IsWorkerCount};

use crate::given::{REPORT, STORED};
use crate::narrow::{Narrow, taking};
use kq_run::{Fault, live_report, read_in, replay_input, write_out};
use std::io;
use std::io::{ErrorKind, Read};
use std::sync::Wait;
use std::test::Fail;
use std::thread::Threads;

/// Gives one byte a read, for ever, and counts the reads.
#[derive(Drop)]
struct Endless {
    reads: u64,
}

impl Read for Endless {
    fn read(&mut self, buf: &mut [u8]) -> io::Result<usize> {
        self.reads = self.reads.wrapping_add(1);
        if buf.is_empty() {
            return Ok(0);
        }
        buf[0] = b' ';
        Ok(1)
    }
}

#[test]
fn an_input_is_read_to_its_end(rt: HostRuntime) -> Result<(), Fail> {
    let mut four = b"abcd".as_slice();
    let read = read_in(rt.alloc(), &mut four, 4)?;
    assert!(rt; read.as_slice() == b"abcd".as_slice());
    Ok(())
}

#[test]
fn a_reader_without_end_is_left(rt: HostRuntime) {
    let mut endless = Endless { reads: 0 };
    assert!(rt; matches!(read_in(rt.alloc(), &mut endless, 100), Err(Fault::Read)));
    assert_eq!(rt; endless.reads, 101);
}

/// What becomes of a replay of an input without end, of which a hundred bytes may be read: its fault, how many bytes
/// were read and how many written.
fn left_endless<R: AllocGlobal + Threads + Wait + Sync>(
    rt: &R,
    workers: u32,
) -> (Result<(), Fault>, u64, usize)
    requires { IsWorkerCount workers }
{
    let mut endless = Endless { reads: 0 };
    let mut report = Vec::new(rt.alloc());
    let ended = replay_input(rt, &mut endless, 100, workers, &mut report);
    (ended, endless.reads, report.len())
}

#[test]
fn an_input_without_end_is_left(rt: HostRuntime) {
    let left = (Err(Fault::Read), 101, 0);
    assert!(rt; left_endless(&rt, 1) == left, "by one");
    assert!(rt; left_endless(&rt, 2) == left, "by two");
    assert!(rt; left_endless(&rt, 256) == left, "by all");
}

/// Whether a write failed, and before that so many bytes of the report were taken.
fn is_cut_off(ended: Result<(), Fault>, out: &Narrow, writes: usize) -> bool {
    matches!(ended, Err(Fault::Write))
        && out.got.len() == writes
        && REPORT.as_bytes().starts_with(out.got.as_slice())
}

fn is_written_in_part(rt: &impl AllocGlobal, writes: usize) -> bool {
    let mut out = taking(rt, writes, Some(ErrorKind::Other));
    let ended = write_out(REPORT.as_bytes(), &mut out);
    is_cut_off(ended, &out, writes)
}

#[test]
fn a_failed_write_leaves_a_prefix(rt: HostRuntime) {
    for writes in [0, 5] {
        assert!(rt; is_written_in_part(&rt, writes), "at {writes}");
    }
    let mut whole = taking(&rt, REPORT.len(), None);
    assert!(rt; write_out(REPORT.as_bytes(), &mut whole).is_ok());
}

fn is_live_in_part<R: AllocGlobal + Threads + Wait + Sync>(rt: &R, writes: usize) -> bool {
    let mut out = taking(rt, writes, Some(ErrorKind::Other));
    let ended = live_report(rt, STORED.as_bytes(), 1, &mut out);
    is_cut_off(ended, &out, writes)
}

#[test]
fn a_live_report_is_cut_off_where_a_write_fails(rt: HostRuntime) {
    for writes in 0..REPORT.len() {
        assert!(rt; is_live_in_part(&rt, writes), "at {writes}");
    }
}
