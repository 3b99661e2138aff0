//! One step of the system.
ghost use Rattle.std.specs.Prelude.{◌≡◌};
ghost use Rattle.libkqsim.specs.Steps.{IsAnswered};

use kq_freebsd::Refusal;
use kq_model::{Event, Reply};
use kq_system::System;

/// Records that a system takes.
const MOST_RECORDS: u64 = (1 << 31) - 1;

/// Applies one event to the system, unless it has taken 2^31 - 1 records.
pub(crate) fn step(system: &mut System, event: &Event) -> Result<Reply, Refusal>
    ensures { IsAnswered event.now system.old system.new result }
{
    if system.applied() >= MOST_RECORDS {
        return Err(Refusal::Full);
    }
    system.apply(event).map_err(|_| Refusal::Memory)
}
