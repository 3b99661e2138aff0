//! How long lines can be, told from how many events they have, so that a buffer can be there before they are made.

ghost use Rattle.std.specs.Prelude.{◌≡◌, ◌<◌, ◌≤◌, ◌^◌};
ghost use Rattle.kq_merge.specs.Bounds.{line_bound};
ghost use Rattle.kq_merge.specs.Rooms.{answer_bound, room_of};

use super::text::events_in;
use kq_model::limits::MOST_ROOM;
use kq_model::{Event, Reply};

/// How many bytes a line has at most, but for its events.
pub const LINE_BYTES: usize = 64;

/// How many bytes an event has at most, with the comma before it.
pub const EVENT_BYTES: usize = 256;

/// How many bytes the line of a reply has at most.
pub fn line_bound(reply: &Reply) -> u128
    ensures value { result ≡ line_bound reply.now }
    ensures fits { result < 2 ^ 72 }
{
    LINE_BYTES as u128 + EVENT_BYTES as u128 * u128::from(events_in(reply))
}

/// How many events the reply to an event can have.
pub fn room_of(event: &Event) -> usize
    ensures value { result ≡ room_of event.now }
    ensures within { result ≤ MOST_ROOM }
{
    match event {
        Event::Kevent { room, .. } if *room <= MOST_ROOM => *room as usize,
        _ => 0,
    }
}

/// How many bytes the line of the reply to an event can have.
pub fn answer_bound(event: &Event) -> usize
    ensures { result ≡ answer_bound event.now }
{
    LINE_BYTES + EVENT_BYTES * room_of(event)
}
