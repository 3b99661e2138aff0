//! More calls that wait than the lock has slots for them to sleep in: each slot has two tickets, and a wake of one of
//! them wakes both.
ghost use Rattle.std.specs.Prelude.{◌≡◌};
ghost use denote.Param.Send.{IsSync};

use super::machines::Gathering;
use super::with_one_seat;
use kq_lock::{TurnLock, TurnSeat};
use std::sync::atomic::AtomicU64;
use std::sync::atomic::Ordering::SeqCst;
use std::sync::{Arc, Wait};
use std::test::Fail;
use std::thread::{Threads, join};

/// How many callers there are; there are 64 slots.
const CALLERS: u64 = 128;

// Counts itself among the callers, and makes one call: its answer, 0 where it was refused.
fn called<R: Wait>(
    rt: &R,
    lock: &TurnLock<Gathering>,
    word: &AtomicU64,
    mut seat: TurnSeat<Gathering>,
) -> u64
    requires { seat.lock ≡ lock.now }
{
    word.fetch_add(1, SeqCst);
    match lock.call(rt, &mut seat, ()) {
        Ok(receipt) => receipt.answer,
        Err(_) => 0,
    }
}

// So many callers, each in a thread of its own and with a part of the seat: the sum of their answers.
fn by_callers<R: Threads + Wait + Sync>(
    rt: &R,
    lock: &TurnLock<Gathering>,
    word: &AtomicU64,
    mut seat: TurnSeat<Gathering>,
    callers: u64,
) -> u64
    requires { seat.lock ≡ lock.now }
{
    if callers < 2 {
        return called(rt, lock, word, seat);
    }
    let part = lock.split(&mut seat);
    let others = callers - 1;
    let (answer, answers) = join(
        rt,
        || called(rt, lock, word, part),
        || -> u64
            requires lock { seat.lock ≡ lock.now }
            requires sync { IsSync R.row }
        { by_callers(rt, lock, word, seat, others) },
    );
    answers.wrapping_add(answer)
}

// Each call is answered how many there were, itself included.
#[test]
fn calls_that_share_a_slot_get_their_turns(rt: HostRuntime) -> Result<(), Fail> {
    let word = Arc::new(rt.alloc(), AtomicU64::new(0))?;
    let machine = Gathering {
        word: Arc::try_clone(&word)?,
        callers: CALLERS,
        steps: 0,
    };
    let (lock, seat) = with_one_seat(rt.alloc(), machine, CALLERS)?;
    let answers = by_callers(&rt, &lock, &word, seat, CALLERS);
    assert_eq!(rt; answers, CALLERS * (CALLERS + 1) / 2);
    Ok(())
}
