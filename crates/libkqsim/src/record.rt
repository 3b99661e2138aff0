//! A record that is applied, and the number that C gets.
ghost use Rattle.std.specs.Prelude.{◌≡◌};
ghost use Rattle.kq_freebsd.specs.Answers.{refusal_number};
ghost use Rattle.kq_freebsd.specs.declared.refusal.Refusal.TheVariants.{Argument};
ghost use Rattle.libkqsim.specs.Steps.{IsNumbered};

use crate::handle::Kqsim;
use kq_freebsd::{Refusal, number_of, refusal_number};
use kq_model::Event;

/// Applies a record, and gives the number of its answer.
pub(crate) fn record(sim: &mut Kqsim, event: &Event) -> i32
    ensures { IsNumbered event.now sim.old.state sim.new.state result }
{
    let answer = sim.step(event);
    number_of(&answer)
}

/// The number for an argument that a call does not take.
pub(crate) fn no_argument() -> i32
    ensures { result ≡ refusal_number Argument }
{
    refusal_number(Refusal::Argument)
}
