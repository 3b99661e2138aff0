//! A call that comes to sleep while another one has the turn. It was woken if the test ends.
ghost use Rattle.std.specs.Prelude.{◌≡◌};

use super::machines::{Lingering, await_word};
use super::{Told, assert_told, told, with_two_seats};
use kq_lock::{TurnError, TurnLock, TurnSeat};
use std::sync::atomic::AtomicU64;
use std::sync::{Arc, Wait};
use std::test::Fail;
use std::thread::{Threads, join};

// A call that begins once the word is 1.
fn called<R: Wait>(
    rt: &R,
    lock: &TurnLock<Lingering>,
    word: &AtomicU64,
    mut seat: TurnSeat<Lingering>,
) -> Told
    requires { seat.lock ≡ lock.now }
{
    await_word(word, 1);
    told(lock.call(rt, &mut seat, ()))
}

// A single try has the turn, and a call waits for it meanwhile.
fn tried_and_called<R: Threads + Wait + Sync>(
    rt: &R,
    lock: &TurnLock<Lingering>,
    word: &AtomicU64,
    mut one: TurnSeat<Lingering>,
    two: TurnSeat<Lingering>,
) -> (Told, Told)
    requires one { one.lock ≡ lock.now }
    requires two { two.lock ≡ lock.now }
{
    join(
        rt,
        || told(lock.try_call(&mut one, ())),
        || called(rt, lock, word, two),
    )
}

// What the try answers and the call, where the machine refuses its first step or does not.
fn slept<R: AllocGlobal + Threads + Wait + Sync>(
    rt: &R,
    refuses: bool,
) -> Result<(Told, Told), Fail> {
    let word = Arc::new(rt.alloc(), AtomicU64::new(0))?;
    let machine = Lingering {
        word: Arc::try_clone(&word)?,
        refuses,
    };
    let (lock, one, two) = with_two_seats(rt.alloc(), machine, 2)?;
    Ok(tried_and_called(rt, &lock, &word, one, two))
}

#[test]
fn a_try_wakes_a_call(rt: HostRuntime) -> Result<(), Fail> {
    let (tried, called) = slept(&rt, false)?;
    assert_told(&rt, tried, &Ok((1, 1, 0)));
    assert_told(&rt, called, &Ok((2, 1, 0)));
    Ok(())
}

#[test]
fn a_refused_step_wakes_a_call(rt: HostRuntime) -> Result<(), Fail> {
    let (tried, called) = slept(&rt, true)?;
    assert_told(&rt, tried, &Err(TurnError::Memory));
    assert_told(&rt, called, &Ok((1, 1, 0)));
    Ok(())
}
