//! Single tries of eight threads.
ghost use Rattle.std.specs.Prelude.{◌≡◌};

use super::calls::with_one_seat;
use kq_live::{Live, LiveError, LiveSeat, MOST_CALLS};
use kq_model::Event;
use std::sync::Wait;
use std::test::Fail;
use std::thread::{Threads, join};

// A hundred tries, and how many of them were calls.
fn hundred(live: &Live, mut seat: LiveSeat) -> (u64, LiveSeat)
    requires { seat.lock ≡ live.now.lock }
    ensures { result.1.lock ≡ live.now.lock }
{
    let mut calls = 0u64;
    for _ in 0..100u32 {
        if live.try_call(&mut seat, Event::Clock { ns: 0 }).is_ok() {
            calls = calls.saturating_add(1);
        }
    }
    (calls, seat)
}

// The seat in so many parts, each of which makes a hundred tries in a thread of its own. At the end it is one seat.
fn by_parts<R: Threads + Wait>(
    rt: &R,
    live: &Live,
    mut seat: LiveSeat,
    parts: u32,
) -> (u64, LiveSeat)
    requires { seat.lock ≡ live.now.lock }
    ensures { result.1.lock ≡ live.now.lock }
{
    if parts < 2 {
        return hundred(live, seat);
    }
    let part = live.split(&mut seat);
    let others = parts - 1;
    let ((first, part), (second, mut seat)) = join(
        rt,
        || -> (u64, LiveSeat)
            requires { part.lock ≡ live.now.lock }
            ensures { result.1.lock ≡ live.entry.now.lock }
        { hundred(live, part) },
        || -> (u64, LiveSeat)
            requires { seat.lock ≡ live.now.lock }
            ensures { result.1.lock ≡ live.entry.now.lock }
        { by_parts(rt, live, seat, others) },
    );
    live.join(&mut seat, part);
    (first.saturating_add(second), seat)
}

// How many calls the seat has seen, and how many the live system closes with.
fn closed(live: Live, seat: LiveSeat) -> Result<(u64, u64), LiveError>
    requires { seat.lock ≡ live.lock }
{
    let seen = Live::seen_len(&seat);
    let book = live.close(seat)?;
    Ok((seen, book.len() as u64))
}

#[test]
fn a_seat_in_eight_parts_tries(rt: HostRuntime) -> Result<(), Fail> {
    let (live, seat) = with_one_seat(rt.alloc(), MOST_CALLS)?;
    let (calls, seat) = by_parts(&rt, &live, seat, 8);
    assert_eq!(rt; closed(live, seat)?, (calls, calls));
    // The first of them to take a ticket had nobody before it.
    assert!(rt; calls > 0);
    Ok(())
}
