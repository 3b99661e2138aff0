//! What happens to an order where a reader or a writer fails midway.
use crate::given::{REPORT, STORED};
use crate::narrow::taking;
use crate::words::replay_of;
use kq_command::{Order, run_order};
use std::io;
use std::io::{ErrorKind, Read};
use std::sync::Wait;
use std::test::Fail;
use std::thread::Threads;

/// Gives one byte a read, and fails once it was read so often.
#[derive(Drop)]
struct Halting<'a> {
    bytes: &'a [u8],
    reads: usize,
    kind: ErrorKind,
}

impl Read for Halting<'_> {
    fn read(&mut self, buf: &mut [u8]) -> io::Result<usize> {
        if self.reads == 0 {
            return Err(io::Error::from(self.kind));
        }
        self.reads -= 1;
        if self.bytes.is_empty() || buf.is_empty() {
            return Ok(0);
        }
        buf[0] = self.bytes[0];
        self.bytes = &self.bytes[1..];
        Ok(1)
    }
}

fn giving(bytes: &[u8], reads: usize) -> Halting<'_> {
    Halting {
        bytes,
        reads,
        kind: ErrorKind::Other,
    }
}

/// What a run leaves: its status, and what was written to its output and to its errors.
type Left<'a> = (u8, &'a [u8], &'a [u8]);

/// Whether an order leaves this where its reader gives these bytes, and fails after so many reads.
fn leaves<R: AllocGlobal + Threads + Wait + Sync>(
    rt: &R,
    order: &Order,
    (bytes, reads): (&[u8], usize),
    (status, written, told): Left<'_>,
) -> bool {
    let mut reader = giving(bytes, reads);
    let mut out = taking(rt, 1000, None);
    let mut err = taking(rt, 1000, None);
    run_order(rt, order, &mut reader, &mut out, &mut err) == status
        && out.got.as_slice() == written
        && err.got.as_slice() == told
}

#[test]
fn an_order_ends_with_the_status_of_its_fault(rt: HostRuntime) -> Result<(), Fail> {
    let order = replay_of(&rt, 2, "-")?;
    let stored = STORED.as_bytes();
    let cases: [((&[u8], usize), Left<'_>); 3] = [
        ((stored, 1000), (0, REPORT.as_bytes(), b"")),
        ((stored, 20), (3, b"", b"kqsim: cannot read the trace\n")),
        ((&stored[..20], 1000), (4, b"", b"kqsim: line 2: Json\n")),
    ];
    for (given, left) in cases {
        assert!(rt; leaves(&rt, &order, given, left), "status {}", left.0);
    }
    Ok(())
}

/// The status of an order whose reader and errors fail at once, and how many bytes it wrote.
fn left_unread<R: AllocGlobal + Threads + Wait + Sync>(rt: &R, order: &Order) -> (u8, usize) {
    let mut reader = giving(STORED.as_bytes(), 0);
    let mut out = taking(rt, 1000, None);
    let mut err = taking(rt, 0, None);
    let status = run_order(rt, order, &mut reader, &mut out, &mut err);
    (status, out.got.len())
}

#[test]
fn a_wrong_number_is_refused_before_reading(rt: HostRuntime) -> Result<(), Fail> {
    let order = replay_of(&rt, 257, "-")?;
    assert_eq!(rt; left_unread(&rt, &order), (2, 0));
    Ok(())
}

/// Whether the stored run ends with status 3 and nothing is written where the reader fails after so many reads.
fn is_left_unread<R: AllocGlobal + Threads + Wait + Sync>(
    rt: &R,
    order: &Order,
    reads: usize,
) -> bool {
    let mut reader = giving(STORED.as_bytes(), reads);
    let mut out = taking(rt, 1000, None);
    let mut err = taking(rt, 1000, None);
    run_order(rt, order, &mut reader, &mut out, &mut err) == 3 && out.got.is_empty()
}

#[test]
fn a_reader_may_fail_at_its_first_second_and_last_read(rt: HostRuntime) -> Result<(), Fail> {
    let order = replay_of(&rt, 2, "-")?;
    for reads in [0, 1, STORED.len()] {
        assert!(rt; is_left_unread(&rt, &order, reads), "after {reads}");
    }
    Ok(())
}

/// Whether the stored run ends with status 7 where the writer takes so many bytes and then fails in this way, and what
/// it took is the beginning of the report.
fn is_cut_off<R: AllocGlobal + Threads + Wait + Sync>(
    rt: &R,
    order: &Order,
    writes: usize,
    kind: Option<ErrorKind>,
) -> bool {
    let mut reader = giving(STORED.as_bytes(), 1000);
    let mut out = taking(rt, writes, kind);
    let mut err = taking(rt, 1000, None);
    run_order(rt, order, &mut reader, &mut out, &mut err) == 7
        && out.got.len() == writes
        && REPORT.as_bytes().starts_with(out.got.as_slice())
}

#[test]
fn a_writer_may_fail_at_each_write(rt: HostRuntime) -> Result<(), Fail> {
    let order = replay_of(&rt, 1, "-")?;
    let kinds = [Some(ErrorKind::Other), Some(ErrorKind::Interrupted), None];
    for writes in 0..REPORT.len() {
        for kind in kinds {
            assert!(rt;
                is_cut_off(&rt, &order, writes, kind),
                "{kind:?} at {writes}"
            );
        }
    }
    Ok(())
}

/// Whether an order whose output takes nine bytes leaves this.
fn leaves_nine<R: AllocGlobal + Threads + Wait + Sync>(
    rt: &R,
    order: &Order,
    (status, written, told): Left<'_>,
) -> bool {
    let mut reader = giving(STORED.as_bytes(), 1000);
    let mut out = taking(rt, 9, None);
    let mut err = taking(rt, 1000, None);
    run_order(rt, order, &mut reader, &mut out, &mut err) == status
        && out.got.as_slice() == written
        && err.got.as_slice() == told
}

#[test]
fn a_full_output_is_told(rt: HostRuntime) -> Result<(), Fail> {
    let order = replay_of(&rt, 1, "-")?;
    let left: Left<'_> = (7, b"{\"at\":3,\"", b"kqsim: cannot write the report\n");
    assert!(rt; leaves_nine(&rt, &order, left));
    Ok(())
}
