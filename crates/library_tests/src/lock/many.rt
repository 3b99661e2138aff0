//! Calls of many threads, each by a seat of its own.
ghost use Rattle.std.specs.Prelude.{◌≡◌};

use super::both_seats;
use super::machines::Sum;
use kq_lock::{TurnLock, TurnSeat};
use std::sync::Wait;
use std::test::Fail;
use std::thread::{Threads, join};

// A hundred calls.
fn hundred<R: Wait>(rt: &R, lock: &TurnLock<Sum>, mut seat: TurnSeat<Sum>) -> TurnSeat<Sum>
    requires { seat.lock ≡ lock.now }
    ensures { result.lock ≡ lock.now }
{
    for _ in 0..100u32 {
        // What was refused is missing in the history.
        let _ = lock.call(rt, &mut seat, 1);
    }
    seat
}

// A hundred calls by each of two seats, of which the first learns what the second has seen.
fn by_two<R: Threads + Wait + Sync>(
    rt: &R,
    lock: &TurnLock<Sum>,
    one: TurnSeat<Sum>,
    two: TurnSeat<Sum>,
) -> TurnSeat<Sum>
    requires one { one.lock ≡ lock.now }
    requires two { two.lock ≡ lock.now }
    ensures { result.lock ≡ lock.now }
{
    let (mut one, two) = join(
        rt,
        || -> TurnSeat<Sum>
            requires { one.lock ≡ lock.now }
            ensures { result.lock ≡ lock.entry.now }
        { hundred(rt, lock, one) },
        || -> TurnSeat<Sum>
            requires { two.lock ≡ lock.now }
            ensures { result.lock ≡ lock.entry.now }
        { hundred(rt, lock, two) },
    );
    lock.join(&mut one, two);
    one
}

// The same by each of four.
fn by_four<R: Threads + Wait + Sync>(
    rt: &R,
    lock: &TurnLock<Sum>,
    one: TurnSeat<Sum>,
    two: TurnSeat<Sum>,
    three: TurnSeat<Sum>,
    four: TurnSeat<Sum>,
) -> TurnSeat<Sum>
    requires first { (one.lock ≡ lock.now) × (two.lock ≡ lock.now) }
    requires second { (three.lock ≡ lock.now) × (four.lock ≡ lock.now) }
    ensures { result.lock ≡ lock.now }
{
    let (mut first, second) = join(
        rt,
        || -> TurnSeat<Sum>
            requires { (one.lock ≡ lock.now) × (two.lock ≡ lock.now) }
            ensures { result.lock ≡ lock.entry.now }
        { by_two(rt, lock, one, two) },
        || -> TurnSeat<Sum>
            requires { (three.lock ≡ lock.now) × (four.lock ≡ lock.now) }
            ensures { result.lock ≡ lock.entry.now }
        { by_two(rt, lock, three, four) },
    );
    lock.join(&mut first, second);
    first
}

// The total and how many calls the history has, after a hundred calls by each of four seats.
fn four_hundred<R: AllocGlobal + Threads + Wait + Sync>(rt: &R) -> Result<(u64, usize), Fail> {
    let (lock, mut seats) = TurnLock::new(rt.alloc(), Sum { total: 0 }, 4, 400)?;
    let (one, two) = both_seats(&lock, &mut seats)?;
    let (three, four) = both_seats(&lock, &mut seats)?;
    let seat = by_four(rt, &lock, one, two, three, four);
    let (sum, history) = lock.close(seat)?;
    Ok((sum.total, history.len()))
}

#[test]
fn four_seats_make_four_hundred_calls(rt: HostRuntime) -> Result<(), Fail> {
    assert_eq!(rt; four_hundred(&rt)?, (400, 400));
    Ok(())
}
