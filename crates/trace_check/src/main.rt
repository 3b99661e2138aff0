//! Reads traces from standard input, for the tests and the benchmark of reading and writing:
//!
//!     trace_check read          reads a trace, and prints how many records it has
//!     trace_check values        the same, each line by way of a JSON value
//!     trace_check write         prints the canonical text of a trace
//!     trace_check each          reads each line as the one record of a trace, and prints that trace or its fault
//!     trace_check each-value    the same, by way of a JSON value
//!     trace_check fallbacks     prints how many lines behind the header the typed pass does not take
#![tactic(auto)]

mod lines;
mod task;

use anyhow::Context;
use kq_trace::{read_trace, read_trace_by_values, write_trace};
use lines::{Readers, each_line, fallbacks};
use std::alloc::AllocError;
use std::env;
use std::io::{Read, Write};
use std::sync::Wait;
use std::thread::Threads;
use task::Task;

fn main(rt: HostRuntime) -> anyhow::Result<()> {
    let words = env::args(&rt)?;
    let word = words.skip(1).next();
    let task = word.as_ref().and_then(|word| Task::named(word.as_str()));
    let task = task.context(
        "usage: trace_check read | values | write | each | each-value | fallbacks",
    )?;
    let mut bytes = Vec::new(rt.alloc());
    rt.stdin().read_to_end(&mut bytes)?;
    run(&rt, task, bytes.as_slice(), &mut rt.stdout())
}

fn run<R: AllocGlobal + Print + Threads + Wait + Sync, W: Write>(
    rt: &R,
    task: Task,
    bytes: &[u8],
    out: &mut W,
) -> anyhow::Result<()> {
    match task {
        Task::Read => println!(rt; "{} records", read_trace(rt, bytes)?.events.len())?,
        Task::Values => println!(rt; "{} records", read_trace_by_values(rt, bytes)?.events.len())?,
        Task::Write => {
            let trace = read_trace(rt, bytes)?;
            let text = write_trace(rt.alloc(), &trace).map_err(|_| AllocError)?;
            out.write_all(text.as_slice())?;
        }
        Task::Each => {
            let text = each_line(rt, bytes, Readers::TypedFirst)?;
            out.write_all(text.as_slice())?;
        }
        Task::EachValue => {
            let text = each_line(rt, bytes, Readers::ValuesAlone)?;
            out.write_all(text.as_slice())?;
        }
        Task::Fallbacks => println!(rt; "{} fall back", fallbacks(rt.alloc(), bytes))?,
    }
    Ok(())
}
