//! The second copy of a reply.
ghost use Rattle.std.specs.Prelude.{◌≡◌, ◌≤◌, length, IfOk};
ghost use Rattle.kq_merge.specs.Rooms.{HasAtMost, room_of};

use kq_merge::room_of;
use kq_model::{Event, Kevent, Memory, Reply, Series};
use std::alloc::Global;
use std::marker::Model;

/// Memory for a copy of the reply to an event.
#[derive(Drop)]
pub struct Spare {
    kevents: Vec<Kevent>,
}

impl Model for Spare {
    ghost use Rattle.std.specs.Prelude.{◌≡◌, ℕ, [], vec_capacity};

    // how many events a reply may have
    ghost Value = { ℕ };

    ghost view = { λ s. vec_capacity s.kevents };

    ghost invariant = { λ s. s.kevents.items ≡ [] };
}

impl Spare {
    /// Takes the memory that a copy of the reply to this event can need.
    pub fn for_reply_to(alloc: Global, event: &Event) -> Result<Spare, Memory>
        ensures { IfOk result (λ s. room_of event.now ≤ s) }
    {
        let kevents = Vec::with_capacity(alloc, room_of(event))?;
        Ok(Spare { kevents })
    }

    /// An equal reply. It takes no memory.
    pub fn copy_of(self, reply: &Reply) -> Reply
        requires { HasAtMost self reply.now }
        ensures { result ≡ reply.now }
    {
        match reply {
            Reply::Done => Reply::Done,
            Reply::Events(events) => Reply::Events(self.filled(events.as_slice())),
            Reply::Failed(error) => Reply::Failed(*error),
            Reply::Impossible(why) => Reply::Impossible(*why),
        }
    }

    fn filled(self, events: &[Kevent]) -> Series<Kevent>
        requires { length events.now ≤ self }
        ensures { result ≡ events.now }
    {
        let Spare { mut kevents } = self;
        match kevents.extend_from_slice(events) {
            Ok(()) => Series::from_vec(kevents),
            Err(_) => unreachable!(),
        }
    }
}
