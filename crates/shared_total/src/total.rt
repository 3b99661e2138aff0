//! The total to which customers add, as a machine under the lock.

ghost use Rattle.std.specs.Prelude.{◌≡◌, ◌+◌, ◌%◌, ◌^◌};

use kq_lock::Machine;
use kq_model::Memory;
use kq_serve::Served;

/// An amount that a customer adds.
#[derive(Clone, Copy)]
pub struct Addition {
    pub customer: u64,
    pub amount: u64,
}

/// The sum of all amounts, modulo 2^64. Each addition is answered by the sum after it.
#[derive(Drop)]
pub struct Total {
    sum: u64,
}

impl Total {
    pub fn new() -> Total
        ensures { result.sum ≡ 0 }
    {
        Total { sum: 0 }
    }

    pub fn sum(&self) -> u64
        ensures { result ≡ self.now.sum }
    {
        self.sum
    }
}

impl Machine for Total {
    type Step = Addition;

    type Answer = u64;

    ghost leads = { λ v e a w. (w.sum ≡ (v.sum + e.amount) % 2 ^ 64) × (a ≡ w.sum) };

    fn apply(&mut self, step: &Addition) -> Result<(u64, u64), Memory> {
        self.sum = self.sum.wrapping_add(step.amount);
        Ok((self.sum, self.sum))
    }
}

impl Served for Total {
    ghost owner = { λ e. e.customer };

    fn owner_of(step: &Addition) -> u64 {
        step.customer
    }

    fn copy(step: &Addition) -> Result<Addition, Memory> {
        Ok(*step)
    }
}
