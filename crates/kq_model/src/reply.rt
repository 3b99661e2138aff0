//! The answer to one record: done, events, an error, or why it could not happen.

ghost use Rattle.std.specs.Prelude.{◌≡◌, IfOk};

use crate::{Errno, Kevent, Memory, Series, Why};

/// What the system answers to one record.
#[derive(Drop)]
pub enum Reply {
    /// The record had its effect, and there is nothing to return.
    Done,
    /// A kevent call returned these events.
    Events(Series<Kevent>),
    /// A kevent call failed.
    Failed(Errno),
    /// The record could not happen, and changed nothing.
    Impossible(Why),
}

impl Reply {
    /// An equal reply.
    pub fn copy(&self) -> Result<Self, Memory>
        ensures { IfOk result (λ copied. copied ≡ self.now) }
    {
        match self {
            Reply::Done => Ok(Reply::Done),
            Reply::Events(events) => Ok(Reply::Events(events.copy()?)),
            Reply::Failed(error) => Ok(Reply::Failed(*error)),
            Reply::Impossible(why) => Ok(Reply::Impossible(*why)),
        }
    }
}
