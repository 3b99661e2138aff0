//! A single try while another call has the turn. Both threads are joined.
ghost use Rattle.std.specs.Prelude.{◌≡◌, ◌^◌, ◌≤◌};

use super::machines::{Held, await_word};
use super::{Told, assert_told, told, with_two_seats};
use kq_lock::{TurnError, TurnLock, TurnSeat};
use std::alloc::Global;
use std::sync::atomic::AtomicU64;
use std::sync::atomic::Ordering::SeqCst;
use std::sync::{Arc, Wait};
use std::test::Fail;
use std::thread::{Threads, join};

// One call holds the turn until the other has answered.
fn held_and_tried<R: Threads + Wait + Sync>(
    rt: &R,
    lock: &TurnLock<Held>,
    word: &AtomicU64,
    mut one: TurnSeat<Held>,
    mut two: TurnSeat<Held>,
) -> (Told, Told)
    requires one { one.lock ≡ lock.now }
    requires two { two.lock ≡ lock.now }
{
    join(
        rt,
        || told(lock.call(rt, &mut one, ())),
        || {
            await_word(word, 1);
            let tried = told(lock.try_call(&mut two, ()));
            word.store(2, SeqCst);
            tried
        },
    )
}

// A machine that is held by a word, and the word.
fn held(alloc: Global) -> Result<(Held, Arc<AtomicU64, Global>), Fail> {
    let word = Arc::new(alloc, AtomicU64::new(0))?;
    let machine = Held {
        word: Arc::try_clone(&word)?,
    };
    Ok((machine, word))
}

// What a call that holds the turn of a lock with so many tickets answers, and what a try meanwhile.
fn tried_while_held<R: AllocGlobal + Threads + Wait + Sync>(
    rt: &R,
    last: u64,
) -> Result<(Told, Told), Fail>
    requires { last ≤ 2 ^ 62 }
{
    let (machine, word) = held(rt.alloc())?;
    let (lock, one, two) = with_two_seats(rt.alloc(), machine, last)?;
    Ok(held_and_tried(rt, &lock, &word, one, two))
}

#[test]
fn busy_while_the_turn_is_held(rt: HostRuntime) -> Result<(), Fail> {
    let (held, tried) = tried_while_held(&rt, 2)?;
    assert_told(&rt, tried, &Err(TurnError::Busy));
    assert_told(&rt, held, &Ok((1, 1, 0)));
    Ok(())
}

#[test]
fn worn_out_goes_before_busy(rt: HostRuntime) -> Result<(), Fail> {
    let (held, tried) = tried_while_held(&rt, 1)?;
    assert_told(&rt, tried, &Err(TurnError::WornOut));
    assert_told(&rt, held, &Ok((1, 1, 0)));
    Ok(())
}
