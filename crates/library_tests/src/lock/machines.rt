//! Machines under the lock.
ghost use Rattle.std.specs.Prelude.{◌≡◌, ◌+◌, ◌%◌, ◌^◌};

use kq_lock::Machine;
use kq_model::Memory;
use std::alloc::Global;
use std::sync::Arc;
use std::sync::atomic::AtomicU64;
use std::sync::atomic::Ordering::SeqCst;
use std::thread::yield_now;

/// How often a thread yields before it gives up on another.
pub const TURNS: u64 = 10_000_000;

/// Yields until the word is `wanted`, and says whether it came to that.
pub fn await_word(word: &AtomicU64, wanted: u64) -> bool {
    for _ in 0..TURNS {
        if word.load(SeqCst) == wanted {
            return true;
        }
        yield_now();
    }
    false
}

/// Adds each step to a total, which it answers.
#[derive(Drop)]
pub struct Sum {
    pub total: u64,
}

impl Machine for Sum {
    type Step = u64;

    type Answer = u64;

    ghost leads = { λ v e a w. (w.total ≡ (v.total + e) % 2 ^ 64) × (a ≡ w.total) };

    fn apply(&mut self, step: &u64) -> Result<(u64, u64), Memory> {
        self.total = self.total.wrapping_add(*step);
        Ok((self.total, self.total))
    }
}

/// Answers `Memory` to its first step, and afterwards each step itself.
#[derive(Drop)]
pub struct Forgetful {
    pub steps: AtomicU64,
}

impl Machine for Forgetful {
    type Step = u64;

    type Answer = u64;

    ghost leads = { λ _ e a _. a ≡ e };

    fn apply(&mut self, step: &u64) -> Result<(u64, u64), Memory> {
        if self.steps.fetch_add(1, SeqCst) == 0 {
            return Err(Memory);
        }
        Ok((*step, *step))
    }
}

/// Sets the word to 1, and goes on once it is 2. It answers 1 if it came to that, and else 0.
#[derive(Drop)]
pub struct Held {
    pub word: Arc<AtomicU64, Global>,
}

impl Machine for Held {
    type Step = ();

    type Answer = u64;

    ghost leads = { λ _ _ _ _. Unit {0} };

    fn apply(&mut self, _step: &()) -> Result<(u64, u64), Memory> {
        self.word.store(1, SeqCst);
        let seen = u64::from(await_word(&self.word, 2));
        Ok((seen, seen))
    }
}

/// How often a machine that lingers yields: long enough for a call that begins meanwhile to come to sleep.
const LINGER: u64 = 20_000;

/// Sets the word to 1, and lingers in its first step. That one it answers with `Memory` where it refuses it,
/// and each other step with 1.
#[derive(Drop)]
pub struct Lingering {
    pub word: Arc<AtomicU64, Global>,
    pub refuses: bool,
}

impl Machine for Lingering {
    type Step = ();

    type Answer = u64;

    ghost leads = { λ _ _ _ _. Unit {0} };

    fn apply(&mut self, _step: &()) -> Result<(u64, u64), Memory> {
        if self.word.swap(1, SeqCst) == 0 {
            for _ in 0..LINGER {
                yield_now();
            }
            if self.refuses {
                return Err(Memory);
            }
        }
        Ok((1, 1))
    }
}

/// Waits in its first step until the word is `callers`, and then lingers. It answers how many steps it took.
#[derive(Drop)]
pub struct Gathering {
    pub word: Arc<AtomicU64, Global>,
    pub callers: u64,
    pub steps: u64,
}

impl Machine for Gathering {
    type Step = ();

    type Answer = u64;

    ghost leads = { λ _ _ _ _. Unit {0} };

    fn apply(&mut self, _step: &()) -> Result<(u64, u64), Memory> {
        if self.steps == 0 && await_word(&self.word, self.callers) {
            for _ in 0..LINGER {
                yield_now();
            }
        }
        self.steps = self.steps.wrapping_add(1);
        Ok((self.steps, self.steps))
    }
}
