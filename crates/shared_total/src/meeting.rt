//! A gate at which two threads wait for each other, so that they call at the same time.

use kq_threads::Gate;
use std::sync::atomic::AtomicU64;
use std::sync::atomic::Ordering::SeqCst;
use std::thread::yield_now;

/// How often a thread yields before it gives up on the other.
const TURNS: u64 = 10_000_000;

/// A gate that holds the first two places each until the other was entered.
#[derive(Drop)]
pub struct Meeting {
    entered: AtomicU64,
    given_up: AtomicU64,
}

impl Meeting {
    pub fn new() -> Meeting {
        Meeting {
            entered: AtomicU64::new(0),
            given_up: AtomicU64::new(0),
        }
    }

    /// Both places were entered, and neither thread gave up.
    pub fn was_held(&self) -> bool {
        self.entered.load(SeqCst) == 2 && self.given_up.load(SeqCst) == 0
    }
}

impl Gate for Meeting {
    fn enter(&self, _thread: u32, place: u32) {
        if place > 2 {
            return;
        }
        self.entered.fetch_add(1, SeqCst);
        for _ in 0..TURNS {
            if self.entered.load(SeqCst) >= 2 {
                return;
            }
            yield_now();
        }
        self.given_up.fetch_add(1, SeqCst);
    }
}
