//! What no clause says: that calls succeed, which refusal comes where another call has the turn, that
//! calls which sleep are woken, and that threads end.
mod crowd;
mod machines;
mod many;
mod single;
mod sleeps;
mod threads;

ghost use Rattle.std.specs.Prelude.{◌≡◌, ◌≤◌, ◌^◌, IfOk, IfSome};
ghost use Rattle.kq_lock.specs.Seats.{IsFresh, EachSeat};

use kq_lock::{Machine, Receipt, TurnError, TurnLock, TurnSeat};
use std::alloc::Global;
use std::process::Abort;
use std::test::Fail;

// What a call tells: its place, its answer, and how much its seat had seen.
type Told = Result<(u64, u64, u64), TurnError>;

fn told(answered: Result<Receipt<u64>, TurnError>) -> Told {
    let Receipt {
        at,
        answer,
        seen_len,
    } = answered?;
    Ok((at, answer, seen_len))
}

fn assert_told(rt: &impl Abort, told: Told, expected: &Told) {
    assert!(rt; told == *expected);
}

// One of the seats that a lock was made with.
fn next_seat<M: Machine>(lock: &TurnLock<M>, seats: &mut Vec<TurnSeat<M>>) -> Option<TurnSeat<M>>
    requires { EachSeat (IsFresh lock.now) seats.old.items }
    ensures seat { IfSome result (λ s. s.lock ≡ lock.now) }
    ensures rest { EachSeat (IsFresh lock.now) seats.new.items }
{
    let _ = lock;
    seats.pop()
}

// A lock round the machine, with one seat and so many tickets.
fn with_one_seat<M: Machine>(
    alloc: Global,
    machine: M,
    last: u64,
) -> Result<(TurnLock<M>, TurnSeat<M>), Fail>
    requires { last ≤ 2 ^ 62 }
    ensures { IfOk result (λ made. made.1.lock ≡ made.0) }
{
    let (lock, mut seats) = TurnLock::new(alloc, machine, 1, last)?;
    let one = next_seat(&lock, &mut seats).ok_or("a seat")?;
    Ok((lock, one))
}

// A lock round the machine, with two seats and so many tickets.
fn with_two_seats<M: Machine>(
    alloc: Global,
    machine: M,
    last: u64,
) -> Result<(TurnLock<M>, TurnSeat<M>, TurnSeat<M>), Fail>
    requires { last ≤ 2 ^ 62 }
    ensures one { IfOk result (λ made. made.1.lock ≡ made.0) }
    ensures two { IfOk result (λ made. made.2.lock ≡ made.0) }
{
    let (lock, mut seats) = TurnLock::new(alloc, machine, 2, last)?;
    let (one, two) = both_seats(&lock, &mut seats)?;
    Ok((lock, one, two))
}

// Two of the seats that a lock was made with.
fn both_seats<M: Machine>(
    lock: &TurnLock<M>,
    seats: &mut Vec<TurnSeat<M>>,
) -> Result<(TurnSeat<M>, TurnSeat<M>), Fail>
    requires { EachSeat (IsFresh lock.now) seats.old.items }
    ensures one { IfOk result (λ both. both.0.lock ≡ lock.now) }
    ensures two { IfOk result (λ both. both.1.lock ≡ lock.now) }
    ensures rest { EachSeat (IsFresh lock.now) seats.new.items }
{
    let one = next_seat(lock, seats).ok_or("a seat")?;
    let two = next_seat(lock, seats).ok_or("a second seat")?;
    Ok((one, two))
}
