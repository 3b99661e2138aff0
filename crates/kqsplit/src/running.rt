//! An order, carried out.
ghost use Rattle.kqsplit.specs.Run.{EndsBy};

use crate::order::Order;
use kq_split::{Fault, write_text};
use std::io::{Read, Write};
use std::sync::Wait;
use std::thread::Threads;

/// The most bytes of a trace that the program reads: 2^28.
const MOST_BYTES: usize = 268435456;

/// Carries an order out: reads the trace, writes what is wanted of it, and prints the line of a fault on `err`. The
/// exit status is 0, or that of the fault, [`Fault::status`]. A trace has 2^28 bytes at most.
///
/// After the statuses 2 to 5 nothing was written to `out`, after 7 a prefix. A failing `err` changes no status.
pub fn run_order<R: AllocGlobal + Threads + Wait + Sync, I: Read + Send, O: Write, E: Write>(
    rt: &R,
    order: &Order,
    reader: &mut I,
    out: &mut O,
    err: &mut E,
) -> u8
    ensures { EndsBy result order.now (I.remaining reader.old) (O.contents out.old) (O.contents out.new) }
{
    match write_text(rt, order.wanted, reader, MOST_BYTES, out) {
        Ok(()) => 0,
        Err(fault) => {
            tell(fault, err);
            fault.status()
        }
    }
}

/// Prints the line of a fault; where that fails nothing else can be done.
pub fn tell<E: Write>(fault: Fault, err: &mut E) {
    let _ = writeln!(err, "{fault}");
}
