//! A total that threads share: each adds the amounts of its customers, and the history of all calls
//! is a merge of what the threads added, each thread's in its order.
#![tactic(auto)]

ghost use Rattle.std.specs.Prelude.{◌≡◌, ◌^◌, ◌<◌, ◌≤◌, length};

mod meeting;
mod total;

use kq_serve::{ServeError, serve};
use kq_threads::{Always, Gate, Open, Starts};
use meeting::Meeting;
use std::alloc::Global;
use std::io;
use std::sync::Wait;
use std::thread::Threads;
use total::{Addition, Total};

// Refuses the start of this thread alone.
#[derive(Drop)]
struct Without(u32);

impl Starts for Without {
    fn allow(&self, thread: u32) -> bool {
        thread != self.0
    }
}

// Amounts from 1 on, of a hundred customers.
fn fill(additions: &mut [Addition])
    ensures { length additions.new ≡ length additions.old }
{
    for i in 0..additions.len() {
        let amount = i as u64 + 1;
        additions[i] = Addition {
            customer: amount % 100,
            amount,
        };
    }
}

// The total that so many threads make of the amounts, and how many calls they made.
fn totalled<R: Threads + Wait + Sync, G: Gate + Sync, S: Starts>(
    rt: &R,
    alloc: Global,
    gate: &G,
    starts: &S,
    additions: &[Addition],
    threads: u32,
) -> Result<(u64, usize), ServeError>
    requires threads { (1 ≤ threads) × (threads ≤ 64) }
    requires few { length additions.now < 2 ^ 32 }
{
    let (total, history) = serve(rt, alloc, gate, starts, Total::new(), additions, threads)?;
    Ok((total.sum(), history.len()))
}

fn show(rt: &impl Print, threads: u32, made: Result<(u64, usize), ServeError>) -> io::Result<()> {
    match made {
        Ok((sum, calls)) => println!(rt; "{threads} threads: {calls} calls, total {sum}"),
        Err(refused) => println!(rt; "{threads} threads: {refused}"),
    }
}

fn main(rt: HostRuntime) -> io::Result<()> {
    let alloc = rt.alloc();
    let mut additions = [Addition {
        customer: 0,
        amount: 0,
    }; 1000];
    fill(&mut additions);
    let all = additions.as_slice();
    show(&rt, 1, totalled(&rt, alloc, &Open, &Always, all, 1))?;
    show(&rt, 2, totalled(&rt, alloc, &Open, &Always, all, 2))?;
    show(&rt, 3, totalled(&rt, alloc, &Open, &Always, all, 3))?;
    show(&rt, 8, totalled(&rt, alloc, &Open, &Always, all, 8))?;
    show(&rt, 64, totalled(&rt, alloc, &Open, &Always, all, 64))?;
    show(&rt, 8, totalled(&rt, alloc, &Open, &Without(7), all, 8))?;
    show(&rt, 8, totalled(&rt, alloc, &Open, &Without(1), all, 8))?;
    let meeting = Meeting::new();
    show(&rt, 2, totalled(&rt, alloc, &meeting, &Always, all, 2))?;
    println!(rt;
        "two threads were at the gate at once: {}",
        meeting.was_held()
    )
}
