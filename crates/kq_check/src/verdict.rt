//! What a record comes to beside its answer: equal, allowed, refused or impossible.

ghost use Rattle.std.specs.Prelude.{◌≡◌};
ghost use Rattle.std.specs.Option.{option_map};
ghost use Rattle.kq_check.specs.Replies.{IsVerdictOf};

use crate::answering::is_reply;
use kq_answers::Given;
use kq_model::{Reply, Why};

/// What one record comes to.
#[derive(Drop, Clone, Copy)]
pub enum Verdict {
    /// It goes on, in the order of the queue.
    Equal,
    /// It goes on, in another order.
    Allowed,
    /// The answer is none that some order gives.
    Refused,
    /// The record could not be.
    Impossible(Why),
}

/// A call on the kqueue that a number of a process names, with room for so many events.
#[derive(Drop, Clone, Copy)]
pub struct Call {
    pub pid: u32,
    pub fd: u32,
    pub room: u32,
}

/// What a record comes to that reads no events.
pub fn verdict_of(reply: &Reply, given: Option<&Given>) -> Verdict
    ensures { IsVerdictOf reply.now (option_map (λ g. g.now) given.entry) result }
{
    match reply {
        Reply::Impossible(why) => Verdict::Impossible(*why),
        _ => match given {
            None => Verdict::Equal,
            Some(given) => {
                if is_reply(given, reply) {
                    Verdict::Equal
                } else {
                    Verdict::Refused
                }
            }
        },
    }
}
