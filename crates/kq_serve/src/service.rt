//! The steps of a list, served by threads that call one lock.
ghost use Rattle.std.specs.Prelude.{◌≡◌, ◌^◌, ◌<◌, ◌≤◌, ◌+◌, length, IfErr, IfOk, vec_len};
ghost use Rattle.kq_lock.specs.Seats.{IsFresh, EachSeat};
ghost use Rattle.kq_lock.specs.Calls.{calls_by};
ghost use Rattle.kq_serve.specs.Faults.{IsServeFault};
ghost use Rattle.kq_serve.specs.Shares.{share, shares, steps_of, AreServed, Serves};

use crate::error::ServeError;
use crate::served::Served;
use crate::share::{ShareOf, serve_share};
use kq_lock::{Entry, TurnLock, TurnSeat};
use kq_threads::{Gate, Starts};
use std::alloc::Global;
use std::snapshot::Snapshot;
use std::sync::Wait;
use std::thread;
use std::thread::Threads;

/// Serves the shares of as many threads as there are seats, that of thread 0 on the calling thread.
/// Where a start is refused, the threads that were started are joined first.
pub fn serve_all<M: Served + Send, R: Threads + Wait + Sync, G: Gate + Sync, S: Starts>(
    rt: &R,
    gate: &G,
    starts: &S,
    lock: &TurnLock<M>,
    mut seats: Vec<TurnSeat<M>>,
    steps: &[M::Step],
    threads: u32,
) -> Result<TurnSeat<M>, ServeError>
where
    M::Step: Send + Sync,
    M::Answer: Send,
    requires fresh { EachSeat (IsFresh lock.now) seats.items }
    requires some { (1 ≤ vec_len seats) × (vec_len seats ≤ threads) }
    requires few { length steps.now < 2 ^ 32 }
    ensures lock { IfOk result (λ s. s.lock ≡ lock.now) }
    ensures all { IfOk result (λ s.
        AreServed seats.items (shares M.owner threads (vec_len seats) steps.now) s.seen) }
    ensures err { IfErr result (IsServeFault (vec_len seats)) }
{
    let Some(last) = seats.pop() else {
        unreachable!()
    };
    let thread = seats.len() as u32;
    if thread == 0 {
        return serve_share(rt, gate, lock, last, steps, threads, 0);
    }
    if !starts.allow(thread) {
        return Err(ServeError::Spawn);
    }
    thread::scope(
        thread::scope_env(),
        rt,
        |scope| -> Result<TurnSeat<M>, ServeError>
            requires fresh { EachSeat (IsFresh lock.now) seats.items × IsFresh lock.now last }
            requires thread { (1 ≤ thread) × (thread ≡ vec_len seats) × (thread < threads) }
            requires few { length steps.now < 2 ^ 32 }
            ensures lock { IfOk result (λ s. s.lock ≡ lock.entry.now) }
            ensures served { IfOk result (λ s.
                AreServed seats.items (shares M.owner threads thread steps.entry.now) s.seen
                × (steps_of (calls_by last.number s.seen)
                ≡ share M.owner threads thread steps.entry.now)) }
            ensures err { IfErr result (IsServeFault (thread + 1)) }
        {
            let share = ShareOf {
                seat: Snapshot::of(&last),
                steps,
                threads,
                thread,
            };
            let Ok(child) = scope.spawn_with(share, move || {
                serve_share(rt, gate, lock, last, steps, threads, thread)
            }) else {
                return Err(ServeError::Spawn);
            };
            let before = serve_all(rt, gate, starts, lock, seats, steps, threads);
            let theirs = child.join(rt);
            let mut seat = before?;
            lock.join(&mut seat, theirs?);
            Ok(seat)
        },
    )
}

/// Puts the machine under a lock of its own and serves all steps by so many threads, 1 to 64 of them.
/// Thread t takes the steps whose owner leaves t when divided by `threads`, in their order. The answer
/// is the machine's last value and the history of all calls.
pub fn serve<M: Served + Send, R: Threads + Wait + Sync, G: Gate + Sync, S: Starts>(
    rt: &R,
    alloc: Global,
    gate: &G,
    starts: &S,
    machine: M,
    steps: &[M::Step],
    threads: u32,
) -> Result<(M, Vec<Entry<M::Step, M::Answer>>), ServeError>
where
    M::Step: Send + Sync,
    M::Answer: Send,
    requires threads { (1 ≤ threads) × (threads ≤ 64) }
    requires few { length steps.now < 2 ^ 32 }
    ensures served { IfOk result (λ r.
        Serves M.leads machine r.0 (shares M.owner threads threads steps.now) r.1.items) }
    ensures err { IfErr result (IsServeFault threads) }
{
    let (lock, seats) = TurnLock::new(alloc, machine, threads as usize, steps.len() as u64)?;
    let seat = serve_all(rt, gate, starts, &lock, seats, steps, threads)?;
    let ended = lock.close(seat)?;
    Ok(ended)
}
