//! Gates that count those who enter and hold them, and starts of which one is refused.
use kq_threads::{Gate, Starts};
use std::sync::atomic::AtomicU64;
use std::sync::atomic::Ordering::SeqCst;
use std::thread::yield_now;

/// How often a thread yields before it gives up on another.
const TURNS: u64 = 10_000_000;

/// Counts how often each of three jobs was entered.
#[derive(Drop)]
pub struct Counts {
    jobs: [AtomicU64; 3],
    others: AtomicU64,
}

impl Counts {
    pub fn new() -> Counts {
        Counts {
            jobs: [AtomicU64::new(0), AtomicU64::new(0), AtomicU64::new(0)],
            others: AtomicU64::new(0),
        }
    }

    /// Each of the three was entered once, and no other.
    pub fn all_once(&self) -> bool {
        let mut once = self.others.load(SeqCst) == 0;
        for entered in &self.jobs {
            once &= entered.load(SeqCst) == 1;
        }
        once
    }
}

impl Gate for Counts {
    fn enter(&self, _worker: u32, job: u32) {
        let place = (job as usize).saturating_sub(1);
        let entered = self.jobs.get(place).unwrap_or(&self.others);
        entered.fetch_add(1, SeqCst);
    }
}

/// Holds each of the first `held` who enter, by their number, until the first `awaited` were all entered.
#[derive(Drop)]
pub struct Meeting {
    held: u32,
    awaited: u64,
    entered: AtomicU64,
    given_up: AtomicU64,
}

impl Meeting {
    pub fn new(held: u32, awaited: u64) -> Meeting {
        Meeting {
            held,
            awaited,
            entered: AtomicU64::new(0),
            given_up: AtomicU64::new(0),
        }
    }

    /// All came, and nobody gave up.
    pub fn was_held(&self) -> bool {
        self.entered.load(SeqCst) == self.awaited && self.given_up.load(SeqCst) == 0
    }
}

impl Gate for Meeting {
    fn enter(&self, _thread: u32, number: u32) {
        if u64::from(number) > self.awaited {
            return;
        }
        self.entered.fetch_add(1, SeqCst);
        if number > self.held {
            return;
        }
        for _ in 0..TURNS {
            if self.entered.load(SeqCst) >= self.awaited {
                return;
            }
            yield_now();
        }
        self.given_up.fetch_add(1, SeqCst);
    }
}

/// Holds each of two places until the other was entered.
#[derive(Drop)]
pub struct Pair {
    places: [u32; 2],
    meeting: Meeting,
}

impl Pair {
    pub fn new(places: [u32; 2]) -> Pair {
        Pair {
            places,
            meeting: Meeting::new(2, 2),
        }
    }

    /// Both were entered, and nobody gave up.
    pub fn was_held(&self) -> bool {
        self.meeting.was_held()
    }
}

impl Gate for Pair {
    fn enter(&self, thread: u32, number: u32) {
        if number == self.places[0] || number == self.places[1] {
            self.meeting.enter(thread, 1);
        }
    }
}

/// Refuses the start of this worker alone.
#[derive(Clone, Copy)]
pub struct Without(pub u32);

impl Starts for Without {
    fn allow(&self, worker: u32) -> bool {
        worker != self.0
    }
}
