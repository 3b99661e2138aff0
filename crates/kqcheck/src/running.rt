//! Orders carried out.

use crate::explaining::explained;
use crate::fault::Fault;
use crate::order::Order;
use crate::output::write_out;
use crate::telling::refusal_of;
use crate::text::put_outcome;
use kq_answers::{Answer, AnswerFault, read_answers};
use kq_check::{Outcome, first_misplaced, judge_all};
use kq_judge::Ignored;
use kq_model::{Memory, Trace};
use kq_trace::read_trace_with;
use std::alloc::Global;
use std::io::Write;
use std::sync::Wait;
use std::thread::Threads;

/// The bytes of the files of an order; none of a file that it does not name.
#[derive(Drop)]
pub struct Given {
    pub trace: Vec<u8>,
    pub answers: Vec<u8>,
}

/// What `kqcheck --help` prints.
const HELP: &str = "\
kqcheck - says whether recorded answers of kevent(2) are right, and why not

    kqcheck [--permit-impossible] [--ignore FILTER.MEMBER].. TRACE ANSWERS
    kqcheck [--permit-impossible] --explain PLACE TRACE

ANSWERS has lines as a report has them, for as many calls as one recorded
(kqsim(5) has both formats). An answer is right where some order of the queue
gives it, and is followed by what this order leaves.

    equal          each answer is the one of the queue's order
    allowed        each is right; the first in another order is named
    not allowed    the first that no order gives, and why
    unknown        the same, behind a call that has no answer and could have
                   returned others
    impossible     the first record that cannot be, unless these are permitted

--ignore WRITE.data    a member that is not compared: flags, fflags, data, udata
--explain 18           the call at place 18, kevent by kevent
-                      standard input in place of one of the two files

Exit status: 0 equal or allowed; 1 not allowed, impossible; 2 other words; 3 a
read failed; 4 a bad line, no call; 5 no memory; 7 a write failed; 8 unknown.
";

/// Carries an order out over the bytes of its files, and prints the line of a fault on `err`: the exit status. A
/// failing `err` changes no status.
pub fn run_order<R: AllocGlobal + Threads + Wait + Sync, O: Write, E: Write>(
    rt: &R,
    order: &Order,
    given: &Given,
    out: &mut O,
    err: &mut E,
) -> u8 {
    match carry_out(rt, order, given, out) {
        Ok(status) => status,
        Err(fault) => {
            tell(fault, err);
            fault.status()
        }
    }
}

fn carry_out<R: AllocGlobal + Threads + Wait + Sync, O: Write>(
    rt: &R,
    order: &Order,
    given: &Given,
    out: &mut O,
) -> Result<u8, Fault> {
    match order {
        Order::Help => {
            write_out(HELP.as_bytes(), out)?;
            Ok(0)
        }
        Order::Check {
            ignored,
            permits,
            ..
        } => check(rt, given, ignored.as_slice(), *permits, out),
        Order::Explain { at, permits, .. } => explain(rt, given, *at, *permits, out),
    }
}

fn check<R: AllocGlobal + Threads + Wait + Sync, O: Write>(
    rt: &R,
    given: &Given,
    ignored: &[Ignored],
    permits: bool,
    out: &mut O,
) -> Result<u8, Fault> {
    let trace = read_trace_with(rt, &given.trace, 1)?;
    let answers = read_answers(rt.alloc(), &given.answers)?;
    check_answers(
        rt.alloc(),
        &trace,
        answers.as_slice(),
        ignored,
        permits,
        out,
    )
}

/// Holds answers against a trace.
fn check_answers<O: Write>(
    alloc: Global,
    trace: &Trace,
    answers: &[Answer],
    ignored: &[Ignored],
    permits: bool,
    out: &mut O,
) -> Result<u8, Fault> {
    if let Some(line) = first_misplaced(trace.events.as_slice(), answers) {
        return Err(Fault::Answers {
            line,
            fault: AnswerFault::NoCall,
        });
    }
    let outcome = judge_all(alloc, trace, answers, ignored, permits)?;
    let text = text_of(alloc, trace, answers, ignored, outcome)?;
    write_out(&text, out)?;
    Ok(outcome.status())
}

/// What is said of an outcome; of one that is refused, also why.
fn text_of(
    alloc: Global,
    trace: &Trace,
    answers: &[Answer],
    ignored: &[Ignored],
    outcome: Outcome,
) -> Result<Vec<u8>, Memory> {
    let mut text = Vec::new(alloc);
    put_outcome(&mut text, outcome)?;
    if let Outcome::Refused { at } | Outcome::Unknown { at } = outcome {
        let why = refusal_of(alloc, trace, answers, ignored, at)?;
        text.extend_from_slice(&why).map_err(|_| Memory)?;
    }
    Ok(text)
}

fn explain<R: AllocGlobal + Threads + Wait + Sync, O: Write>(
    rt: &R,
    given: &Given,
    at: u64,
    permits: bool,
    out: &mut O,
) -> Result<u8, Fault> {
    let trace = read_trace_with(rt, &given.trace, 1)?;
    explain_call(rt.alloc(), &trace, at, permits, out)
}

/// Explains the call at a place of a trace, unless an impossible record stands before it.
fn explain_call<O: Write>(
    alloc: Global,
    trace: &Trace,
    at: u64,
    permits: bool,
    out: &mut O,
) -> Result<u8, Fault> {
    let outcome = judge_all(alloc, trace, &[], &[], permits)?;
    match outcome {
        Outcome::Impossible { at: place, .. } if place <= at => {
            let text = text_of(alloc, trace, &[], &[], outcome)?;
            write_out(&text, out)?;
            Ok(1)
        }
        _ => put_explained(alloc, trace, at, out),
    }
}

fn put_explained<O: Write>(
    alloc: Global,
    trace: &Trace,
    at: u64,
    out: &mut O,
) -> Result<u8, Fault> {
    let text = explained(alloc, trace, at)?.ok_or(Fault::NoCall { at })?;
    write_out(&text, out)?;
    Ok(0)
}

/// Prints the line of a fault; where that fails nothing else can be done.
pub fn tell<E: Write>(fault: Fault, err: &mut E) {
    let _ = writeln!(err, "{fault}");
}
