//! Gates that count the workers and hold them, and starts of which one is refused.
use kq_threads::{Gate, Starts};
use std::sync::atomic::AtomicU64;
use std::sync::atomic::Ordering::SeqCst;
use std::thread::yield_now;

/// How often a worker yields before it gives up on another.
const TURNS: u64 = 10_000_000;

/// Counts how often each job was entered.
#[derive(Drop)]
pub struct Counts {
    pub entered: Vec<AtomicU64>,
}

impl Counts {
    /// Each of the jobs was entered once.
    pub fn all_once(&self) -> bool {
        let mut once = true;
        for entered in &self.entered {
            if entered.load(SeqCst) != 1 {
                once = false;
            }
        }
        once
    }
}

impl Gate for Counts {
    fn enter(&self, _worker: u32, job: u32) {
        let place = (job as usize).saturating_sub(1);
        if let Some(entered) = self.entered.get(place) {
            entered.fetch_add(1, SeqCst);
        }
    }
}

/// Holds each of the first `held` jobs until the first `awaited` jobs were all entered.
#[derive(Drop)]
pub struct Meeting {
    pub held: u32,
    pub awaited: u64,
    pub entered: AtomicU64,
    pub given_up: AtomicU64,
}

impl Meeting {
    pub fn new(held: u32, awaited: u64) -> Meeting {
        Meeting {
            held,
            awaited,
            entered: AtomicU64::new(0),
            given_up: AtomicU64::new(0),
        }
    }

    /// No worker gave up.
    pub fn was_held(&self) -> bool {
        self.entered.load(SeqCst) >= self.awaited && self.given_up.load(SeqCst) == 0
    }
}

impl Gate for Meeting {
    fn enter(&self, _worker: u32, job: u32) {
        if u64::from(job) > self.awaited {
            return;
        }
        self.entered.fetch_add(1, SeqCst);
        if job > self.held {
            return;
        }
        for _ in 0..TURNS {
            if self.entered.load(SeqCst) >= self.awaited {
                return;
            }
            yield_now();
        }
        self.given_up.fetch_add(1, SeqCst);
    }
}

/// Refuses the start of this worker alone.
#[derive(Clone, Copy)]
pub struct Without(pub u32);

impl Starts for Without {
    fn allow(&self, worker: u32) -> bool {
        worker != self.0
    }
}
