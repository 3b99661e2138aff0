//! Two calls at once.
use kq_threads::{join, join_mut};
use std::sync::atomic::AtomicU64;
use std::sync::atomic::Ordering::SeqCst;
use std::thread::yield_now;

/// How often a call yields before it gives up on the other.
const TURNS: u64 = 10_000_000;

/// Holds a call until two have come; false where it gave up.
fn meets(come: &AtomicU64) -> bool {
    come.fetch_add(1, SeqCst);
    for _ in 0..TURNS {
        if come.load(SeqCst) == 2 {
            return true;
        }
        yield_now();
    }
    false
}

#[test]
fn two_calls_are_made_at_once(rt: HostRuntime) {
    let come = AtomicU64::new(0);
    let joined = join(&rt, || meets(&come), || meets(&come));
    assert_eq!(rt;
        (joined.first, joined.second, joined.has_started),
        (true, true, true)
    );
}

#[test]
fn lent_calls_are_made_at_once(rt: HostRuntime) {
    let come = AtomicU64::new(0);
    let (mut a, mut b) = (1u32, 2u64);
    let joined = join_mut(
        &rt,
        &mut || {
            a = 10;
            meets(&come)
        },
        &mut || {
            b = 20;
            meets(&come)
        },
    );
    assert_eq!(rt;
        (joined.first, joined.second, joined.has_started),
        (true, true, true)
    );
    assert_eq!(rt; (a, b), (10, 20));
}
