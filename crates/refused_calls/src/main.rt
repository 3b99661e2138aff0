//! Makes calls of the library, each once more where it answers `Memory`. Run with one allocation refused, it prints
//! what it prints with none, unless that allocation is outside those calls.
//!
//!     refused_calls apply       applies the records of a trace from standard input to a system, and prints the report
//!     refused_calls seats       makes the calls of two seats of a live system, and prints the receipts and the book
//!     refused_calls alone N     replays each kqueue of such a trace alone, by N workers, and prints the report
//!
//! The last line on standard error is how many calls were made again, or why nothing was printed.
#![tactic(auto)]

mod alone;
mod applying;
mod fault;
mod seats;
mod task;

use alone::replayed;
use applying::applied;
use fault::Fault;
use seats::shared;
use std::env;
use std::io::{Read, Write};
use std::process::ExitCode;
use std::sync::Wait;
use std::thread::Threads;
use task::Task;

/// What a task prints, and how many calls were made again.
#[derive(Drop)]
pub struct Outcome {
    pub text: Vec<u8>,
    pub again: u64,
}

fn main(rt: HostRuntime) -> ExitCode {
    let done = match asked(&rt) {
        Ok(task) => carry_out(&rt, task, &mut rt.stdin(), &mut rt.stdout()),
        Err(fault) => Err(fault),
    };
    match done {
        Ok(again) => {
            let _ = writeln!(rt.stderr(), "{again} calls made again");
            ExitCode::SUCCESS
        }
        Err(fault) => {
            let _ = writeln!(rt.stderr(), "{fault}");
            ExitCode::from(fault.status())
        }
    }
}

/// The task that the command line names.
fn asked(rt: &HostRuntime) -> Result<Task, Fault> {
    let words = env::args(rt)?;
    let mut words = words.skip(1);
    let (word, count) = (words.next(), words.next());
    Task::named(word.as_deref(), count.as_deref()).ok_or(Fault::Usage)
}

/// Makes all calls, prints what they come to, and returns how many were made again.
fn carry_out<R: AllocGlobal + Threads + Wait + Sync, I: Read, O: Write>(
    rt: &R,
    task: Task,
    input: &mut I,
    out: &mut O,
) -> Result<u64, Fault> {
    let Outcome { text, again } = match task {
        Task::Apply => applied(rt.alloc(), trace_of(rt, input)?.as_slice())?,
        Task::Seats => shared(rt, rt.alloc())?,
        Task::Alone { workers } => replayed(rt, trace_of(rt, input)?.as_slice(), workers)?,
    };
    out.write_all(text.as_slice())?;
    Ok(again)
}

/// The bytes of the trace that the input is.
fn trace_of<R: AllocGlobal, I: Read>(rt: &R, input: &mut I) -> Result<Vec<u8>, Fault> {
    let mut bytes = Vec::new(rt.alloc());
    input.read_to_end(&mut bytes)?;
    Ok(bytes)
}
