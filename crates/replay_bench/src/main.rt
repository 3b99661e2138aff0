//! Replays a trace from standard input part by part, for the benchmark. For each part it writes a line on standard
//! error: its name, and the ns that it took by the clock and of the processors.
//!
//!     replay_bench fold         reads, folds the whole system over the trace and writes, on one thread
//!     replay_bench parts N      reads, splits, replays each kqueue alone by N workers, merges and writes
//!
//! Both print the report.
#![tactic(auto)]

mod fold;
mod parts;
mod task;
mod watch;

use anyhow::Context;
use fold::fold;
use parts::parts;
use std::env;
use std::io::Read;
use task::Task;

fn main(rt: HostRuntime) -> anyhow::Result<()> {
    let words = env::args(&rt)?;
    let mut words = words.skip(1);
    let (word, count) = (words.next(), words.next());
    let task = Task::named(word.as_deref(), count.as_deref());
    let task = task.context("usage: replay_bench fold | parts N")?;
    let mut bytes = Vec::new(rt.alloc());
    rt.stdin().read_to_end(&mut bytes)?;
    let mut times = rt.stderr();
    match task {
        Task::Fold => fold(&rt, bytes.as_slice(), &mut rt.stdout(), &mut times),
        Task::Parts { workers } => parts(
            &rt,
            bytes.as_slice(),
            workers,
            &mut rt.stdout(),
            &mut times,
        ),
    }
}
