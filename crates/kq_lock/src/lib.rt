//! A ticket lock round a machine of the caller's own, whose calls stand in one history.
//!
//! A machine is a value that takes steps and answers each. It names the relation that a step keeps
//! between the old value, the step, the answer and the new value. This one adds each step to a total,
//! which it answers:
//!
//! ```text
//! #[derive(Drop)]
//! struct Sum {
//!     total: u64,
//! }
//!
//! impl Machine for Sum {
//!     type Step = u64;
//!
//!     type Answer = u64;
//!
//!     ghost leads = { λ v e a w. (w.total ≡ (v.total + e) % 2 ^ 64) × (a ≡ w.total) };
//!
//!     fn apply(&mut self, step: &u64) -> Result<(u64, u64), Memory> {
//!         self.total = self.total.wrapping_add(*step);
//!         Ok((self.total, self.total))
//!     }
//! }
//! ```
//!
//! Under a lock with one seat and two tickets it takes two steps. A thread needs a seat of its own:
//! ask `new` for several, or `split` one. The closures of `std::thread::join` share the lock by `&`.
//!
//! ```text
//! let (lock, mut seats) = TurnLock::new(rt.alloc(), Sum { total: 0 }, 1, 2)?;
//! let mut seat = seats.pop().ok_or("a seat")?;
//! let first = lock.call(&rt, &mut seat, 2)?; // at 1, answer 2, seen_len 0
//! let second = lock.call(&rt, &mut seat, 3)?; // at 2, answer 5, seen_len 1
//! let (sum, history) = lock.close(seat)?; // the total 5, and both steps with their answers
//! ```
//!
//! The contract of `call` says of each receipt: the machine's relation leads from `Sum { total: 0 }`
//! through all that the seat has seen, which ends with this call and its answer, and has each call of
//! the seat once.
#![tactic(auto)]

mod call;
mod entry;
mod error;
mod kept;
mod lock;
mod machine;
mod plays;
mod rule;
mod seat;
mod turn;
mod view;
mod waiting;

pub use entry::{Entry, Receipt};
pub use error::TurnError;
pub use lock::TurnLock;
pub use machine::Machine;
pub use seat::TurnSeat;
