//! How tickets wait until their turn comes. Those whose turn is near spin, and the others sleep. Of sleeps and wakes
//! proofs see one thing: who wakes has passed its turn on. No wake is lost: who waits announces it and then loads
//! SERVING, and who passes the turn on stores SERVING and then wakes the ticket that has it.
ghost use Rattle.std.specs.Prelude.{◌≡◌};
ghost use Rattle.kq_lock.specs.declared.view.Stage.TheVariants.{Idle};

use crate::machine::Machine;
use crate::rule::TableSeat;
use crossbeam_utils::Backoff;
use crossbeam_utils::sync::{EventCount, Key};
use std::array;
use std::sync::Wait;

// How many slots there are.
const SLOTS: usize = 64;

// How many turns ahead a ticket is woken, so that it is awake when its own comes.
const NEAR: u64 = 2;

// How many rounds a ticket that is near spins before it sleeps: some 1,000 pauses.
const SPINS: u32 = 20;

/// The slots in which tickets sleep. Tickets that leave the same remainder share one: where one of them
/// is woken the others look at the turn once more.
#[derive(Drop)]
pub struct Waiting {
    slots: [EventCount; SLOTS],
}

impl Waiting {
    /// Nobody waits. It takes no memory.
    pub fn new() -> Waiting {
        Waiting {
            slots: array::from_fn(|_| EventCount::new()),
        }
    }

    fn slot(&self, ticket: u64) -> &EventCount {
        &self.slots[(ticket % SLOTS as u64) as usize]
    }

    /// Wakes this ticket, and those behind it whose turn is near. Waits for nobody. `passed` is for the prover alone:
    /// the seat of the caller, which does not have the turn any more. A ticket that is woken before the turn was passed
    /// on would sleep again.
    pub fn wake<M: Machine>(&self, passed: &TableSeat<M>, ticket: u64)
        requires { passed.now.me.0.stage ≡ Idle }
    {
        let _ = passed;
        for ahead in 0..NEAR {
            self.slot(ticket.wrapping_add(ahead)).notify_all();
        }
    }
}

/// One ticket's wait. In each round `announce`, then look whose turn it is, then `rest`.
#[derive(Drop)]
pub struct Patience<'a> {
    waiting: &'a Waiting,
    ticket: u64,
    backoff: Backoff,
    // rounds that it spins before it sleeps
    spins: u32,
}

impl<'a> Patience<'a> {
    /// A wait that has not begun.
    pub fn new(waiting: &'a Waiting, ticket: u64) -> Patience<'a> {
        Patience {
            waiting,
            ticket,
            backoff: Backoff::new(),
            spins: SPINS,
        }
    }

    /// Announces that the ticket is going to sleep, where it has spun enough. To drop the key takes the
    /// announcement back.
    pub fn announce(&self) -> Option<Key<'a>> {
        if self.spins > 0 {
            return None;
        }
        Some(self.waiting.slot(self.ticket).prepare_wait())
    }

    /// Rests while `serving` has the turn: sleeps where that was announced, and else spins, or goes to sleep
    /// in the next round where the turn is far.
    pub fn rest<R: Wait>(&mut self, rt: &R, serving: u64, key: Option<Key<'a>>) {
        match key {
            Some(key) => {
                key.wait(rt);
                self.spins = SPINS;
            }
            None if self.ticket.wrapping_sub(serving) <= NEAR => {
                self.backoff.spin();
                self.spins = self.spins.saturating_sub(1);
            }
            None => self.spins = 0,
        }
    }
}
