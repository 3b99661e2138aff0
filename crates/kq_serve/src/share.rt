//! The calls of one thread.
ghost use Rattle.std.specs.Prelude.{◌≡◌, ◌^◌, ◌<◌, [], length, IfErr, IfOk};
ghost use Rattle.kq_lock.specs.Seats.{own_calls};
ghost use Rattle.kq_serve.specs.Faults.{IsServeFault};
ghost use Rattle.kq_serve.specs.Shares.{share, HasServed};

use crate::error::ServeError;
use crate::served::Served;
use kq_lock::{TurnLock, TurnSeat};
use kq_threads::Gate;
use std::snapshot::Snapshot;
use std::sync::Wait;
use std::thread::Promise;

/// Makes the calls of one thread, in their order.
pub fn serve_share<M: Served, R: Wait, G: Gate>(
    rt: &R,
    gate: &G,
    lock: &TurnLock<M>,
    mut seat: TurnSeat<M>,
    steps: &[M::Step],
    threads: u32,
    thread: u32,
) -> Result<TurnSeat<M>, ServeError>
    requires seat { seat.lock ≡ lock.now }
    requires new { own_calls seat ≡ [] }
    requires thread { thread < threads }
    requires few { length steps.now < 2 ^ 32 }
    ensures served { IfOk result (λ s. HasServed seat s (share M.owner threads thread steps.now)) }
    ensures err { IfErr result (IsServeFault 1) }
{
    let mut place = 0u32;
    for step in steps {
        place += 1;
        if M::owner_of(step) % u64::from(threads) != u64::from(thread) {
            continue;
        }
        gate.enter(thread, place);
        let step = M::copy(step)?;
        lock.call(rt, &mut seat, step)?;
    }
    Ok(seat)
}

/// For the prover alone: what a thread's seat has done, once the thread is joined.
#[derive(Drop)]
pub struct ShareOf<'a, M: Served> {
    pub seat: Snapshot<TurnSeat<M>>,
    pub steps: &'a [M::Step],
    pub threads: u32,
    pub thread: u32,
}

impl<'a, M: Served> Promise<Result<TurnSeat<M>, ServeError>> for ShareOf<'a, M> {
    ghost use Rattle.std.specs.Prelude.{IfErr, IfOk};
    ghost use Rattle.kq_serve.specs.Faults.{IsServeFault};
    ghost use Rattle.kq_serve.specs.Shares.{share, HasServed};

    ghost kept_by = { λ p r. IfOk r (λ s.
        HasServed p.seat.value s (share M.owner p.threads p.thread p.steps.now))
        × IfErr r (IsServeFault 1) };
}
