//! Answers at places where a trace has no call.

ghost use Rattle.std.specs.Prelude.{◌≡◌};
ghost use Rattle.kq_check.specs.Placed.{first_misplaced, is_placed};

use kq_answers::{Answer, Given};
use kq_model::Event;

/// Whether the record at the answer's place may have such an answer: a call has events or a failure, any record a
/// reason for which it could not be.
fn is_placed(events: &[Event], answer: &Answer) -> bool
    ensures { result ≡ is_placed events.now answer.now }
{
    if answer.at == 0 || answer.at > events.len() as u64 {
        return false;
    }
    let index = (answer.at - 1) as usize;
    match answer.given {
        Given::Impossible(_) => true,
        _ => matches!(events[index], Event::Kevent { .. }),
    }
}

/// The line of the first answer whose place has no such record.
#[tactic(auto, unfolding(crate::specs::Placed::first_misplaced))]
pub fn first_misplaced(events: &[Event], answers: &[Answer]) -> Option<u64>
    ensures { result ≡ first_misplaced events.now answers.now }
{
    for answer in answers {
        if !is_placed(events, answer) {
            return Some(answer.line);
        }
    }
    None
}
