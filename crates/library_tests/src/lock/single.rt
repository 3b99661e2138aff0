//! Calls of one thread.
ghost use Rattle.std.specs.Prelude.{◌≡◌};

use super::machines::{Forgetful, Sum};
use super::{Told, assert_told, told, with_one_seat, with_two_seats};
use kq_lock::{Entry, Machine, TurnError, TurnLock, TurnSeat};
use std::process::Abort;
use std::sync::Wait;
use std::sync::atomic::AtomicU64;
use std::test::Fail;

// How a call is made.
#[derive(Drop, Clone, Copy)]
enum Way {
    Waiting,
    Once,
}

// The seat's calls, each with its step, are told this.
fn assert_calls<R: Abort + Wait, M: Machine<Step = u64, Answer = u64>>(
    rt: &R,
    lock: &TurnLock<M>,
    seat: &mut TurnSeat<M>,
    cases: &[(Way, u64, Told)],
)
    requires { seat.old.lock ≡ lock.now }
    ensures { seat.new.lock ≡ lock.now }
{
    for (way, step, expected) in cases {
        let answered = match *way {
            Way::Waiting => lock.call(rt, seat, *step),
            Way::Once => lock.try_call(seat, *step),
        };
        assert_told(rt, told(answered), expected);
    }
}

// The steps of a history with two entries.
fn both_steps(history: &[Entry<u64, u64>]) -> Option<(u64, u64)> {
    match history {
        [first, second] => Some((first.step, second.step)),
        _ => None,
    }
}

fn forgetful() -> Forgetful {
    Forgetful {
        steps: AtomicU64::new(0),
    }
}

#[test]
fn a_sum_is_worn_out_after_its_last_step(rt: HostRuntime) -> Result<(), Fail> {
    let (lock, mut seat) = with_one_seat(rt.alloc(), Sum { total: 0 }, 2)?;
    let calls = [
        (Way::Waiting, 2, Ok((1, 2, 0))),
        (Way::Waiting, 3, Ok((2, 5, 1))),
        (Way::Waiting, 4, Err(TurnError::WornOut)),
        (Way::Once, 4, Err(TurnError::WornOut)),
    ];
    assert_calls(&rt, &lock, &mut seat, &calls);
    let (sum, history) = lock.close(seat)?;
    assert_eq!(rt;
        (sum.total, both_steps(history.as_slice())),
        (5, Some((2, 3)))
    );
    Ok(())
}

#[test]
fn a_refused_step_uses_a_ticket_up(rt: HostRuntime) -> Result<(), Fail> {
    let (lock, mut seat) = with_one_seat(rt.alloc(), forgetful(), 2)?;
    let calls = [
        (Way::Waiting, 5, Err(TurnError::Memory)),
        (Way::Waiting, 6, Ok((1, 6, 0))),
        (Way::Waiting, 7, Err(TurnError::WornOut)),
    ];
    assert_calls(&rt, &lock, &mut seat, &calls);
    let (_, history) = lock.close(seat)?;
    assert_eq!(rt; history.len(), 1);
    Ok(())
}

// The same in single tries. A seat that saw nothing closes the lock.
#[test]
fn a_refused_try_uses_a_ticket_up(rt: HostRuntime) -> Result<(), Fail> {
    let (lock, mut one, two) = with_two_seats(rt.alloc(), forgetful(), 3)?;
    let calls = [
        (Way::Once, 5, Err(TurnError::Memory)),
        (Way::Waiting, 6, Ok((1, 6, 0))),
        (Way::Once, 7, Ok((2, 7, 1))),
        (Way::Once, 8, Err(TurnError::WornOut)),
    ];
    assert_calls(&rt, &lock, &mut one, &calls);
    let (_, history) = lock.close(two)?;
    assert_eq!(rt; both_steps(history.as_slice()), Some((6, 7)));
    Ok(())
}
