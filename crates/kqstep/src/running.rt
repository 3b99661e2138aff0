//! An order is carried out: the help is printed, or a trace is answered as it comes.

ghost use Rattle.std.specs.Prelude.{◌≡◌};
ghost use Rattle.kq_step.specs.Fault.{status_of};
ghost use Rattle.kqstep.specs.Run.{EndsBy};

use crate::order::Order;
use kq_step::{Fault, answer_all, write_out};
use std::alloc::Global;
use std::io::{Read, Write};

/// What `kqstep --help` prints.
const HELP: &str = "\
kqstep - answers each record of a trace of kqueue(2) as it comes

    kqstep < TRACE

It reads the lines of a trace from standard input (kqsim(5) has the format). For
each line behind the header it writes one line, before it reads the next:

    {\"at\":3}                    the record at place 3; it has no row
    {\"at\":4,\"events\":[..]}      what a call of kevent(2) returned, or failed
                                with; or why the record is impossible
    {\"line\":6,\"fault\":\"Field\"}  line 6 is no record: nothing has changed, and
                                it takes no place

At the end of input it writes the last line of the report, which counts calls,
events and records. Without the lines that have a place alone, that is what
`kqsim replay` writes of the same records.

Exit status: 0; 2 for other words; 3 a read failed; 4 the first line is no
header; 5 out of memory; 7 a write failed.
";

/// Carries an order out, and prints the line of a fault on `err`. The exit status is 0, or that of the fault,
/// [`Fault::status`]. A failing `err` changes no status.
pub fn run_order<I: Read, O: Write, E: Write>(
    alloc: Global,
    order: Order,
    input: &mut I,
    out: &mut O,
    err: &mut E,
) -> u8
    ensures { EndsBy result order (I.remaining input.old) (I.remaining input.new) (O.contents out.old)
        (O.contents out.new) }
{
    match order {
        Order::Answers => match answer_all(alloc, input, out) {
            Ok(()) => 0,
            Err(fault) => told(fault, err),
        },
        Order::Help => match write_out(HELP.as_bytes(), out) {
            Ok(()) => 0,
            Err(fault) => told(fault, err),
        },
    }
}

/// Prints the line of a fault, and gives its status.
fn told<E: Write>(fault: Fault, err: &mut E) -> u8
    ensures { result ≡ status_of fault }
{
    tell(fault, err);
    fault.status()
}

/// Prints the line of a fault; where that fails nothing else can be done.
pub fn tell<E: Write>(fault: Fault, err: &mut E) {
    let _ = writeln!(err, "{fault}");
}
