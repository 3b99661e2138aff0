//! An order is carried out: a trace is read, and its report, its book or a fault is written.

ghost use Rattle.std.specs.Prelude.{◌≡◌, ◌↔◌, IfErr, IsErrOf, IsTrue, OnOk};
ghost use Rattle.std.specs.Io.KnownBytes.{Keeps};
ghost use Rattle.kq_run.specs.Written.{Leaves, Writes};
ghost use Rattle.kq_command.specs.Run.{EndsBy, IsInRange, IsReaderFault, IsReaderOutput, LeavesBy, WritesOutput};

use crate::order::Order;
use kq_run::{
    Fault, book_text, is_thread_count, is_worker_count, live_report, read_in, replay_input,
    write_out,
};
use std::io::{Read, Write};
use std::sync::Wait;
use std::thread::Threads;

/// The most bytes of a trace that the program reads: 2^28.
const MOST_BYTES: usize = 268435456;

/// Carries an order out: reads the trace, writes the report or the book, and prints the line of a fault on
/// `err`. The exit status is 0, or that of the fault, [`Fault::status`]. A trace has 2^28 bytes at most.
///
/// An order whose number of workers or threads is out of range is [`Fault::Usage`] before anything is read.
/// After the statuses 2 to 6 nothing was written to `out`, after 7 a prefix. A failing `err` changes no status.
pub fn run_order<R: AllocGlobal + Threads + Wait + Sync, I: Read + Send, O: Write, E: Write>(
    rt: &R,
    order: &Order,
    reader: &mut I,
    out: &mut O,
    err: &mut E,
) -> u8
    ensures ends { EndsBy result order.now (I.remaining reader.old) (O.contents out.old) (O.contents out.new) }
    ensures usage { (result ≡ 2) ↔ ¬ IsInRange order.now }
    ensures unread { ¬ IsInRange order.now → Keeps (I.remaining reader.old) (I.remaining reader.new) }
{
    match carry_out(rt, order, reader, out) {
        Ok(()) => 0,
        Err(fault) => {
            tell(fault, err);
            fault.status()
        }
    }
}

fn carry_out<R: AllocGlobal + Threads + Wait + Sync, I: Read + Send, O: Write>(
    rt: &R,
    order: &Order,
    reader: &mut I,
    out: &mut O,
) -> Result<(), Fault>
    ensures whole { OnOk result
        (WritesOutput order.now (I.remaining reader.old) (O.contents out.old) (O.contents out.new)) }
    ensures fault { IfErr result (λ f.
        LeavesBy f order.now (I.remaining reader.old) (O.contents out.old) (O.contents out.new)) }
    ensures usage { IsErrOf result Fault.Usage ↔ ¬ IsInRange order.now }
    ensures unread { ¬ IsInRange order.now → Keeps (I.remaining reader.old) (I.remaining reader.new) }
{
    if !is_in_range(order) {
        return Err(Fault::Usage);
    }
    write_output(rt, order, reader, out)
}

/// Whether the order's number of workers or threads is in range.
fn is_in_range(order: &Order) -> bool
    ensures { IsTrue result ↔ IsInRange order.now }
{
    match order {
        Order::Replay { workers, .. } => is_worker_count(*workers),
        Order::Live { threads, .. } | Order::Book { threads, .. } => is_thread_count(*threads),
    }
}

/// Writes what the order makes of the trace that a reader has.
fn write_output<R: AllocGlobal + Threads + Wait + Sync, I: Read + Send, O: Write>(
    rt: &R,
    order: &Order,
    reader: &mut I,
    out: &mut O,
) -> Result<(), Fault>
    requires { IsInRange order.now }
    ensures whole { OnOk result (Writes (IsReaderOutput order.now (I.remaining reader.old))
        (O.contents out.old) (O.contents out.new)) }
    ensures fault { IfErr result (λ f.
        Leaves (IsReaderOutput order.now (I.remaining reader.old)) (IsReaderFault order.now (I.remaining reader.old)) f
        (O.contents out.old) (O.contents out.new)) }
{
    match order {
        Order::Replay { workers, .. } => replay_input(rt, reader, MOST_BYTES, *workers, out),
        Order::Live { threads, .. } => {
            let bytes = read_in(rt.alloc(), reader, MOST_BYTES)?;
            live_report(rt, bytes.as_slice(), *threads, out)
        }
        Order::Book { threads, .. } => {
            let bytes = read_in(rt.alloc(), reader, MOST_BYTES)?;
            let text = book_text(rt, bytes.as_slice(), *threads)?;
            write_out(text.as_slice(), out)
        }
    }
}

/// Prints the line of a fault; where that fails nothing else can be done.
pub fn tell<E: Write>(fault: Fault, err: &mut E) {
    let _ = writeln!(err, "{fault}");
}
