//! What comes of a kqueue, which stays as it is: when a timer expires next, and how many events are pending.

ghost use Rattle.std.specs.Prelude.{◌≡◌, ◌+◌, ◌<◌, ◌≤◌, ◌^◌, [], length, min, count_by};
ghost use Rattle.std.specs.Prelude.{if◌then◌else◌};
ghost use Rattle.kq_model.specs.declared.reply.Reply.TheVariants.{Events};
ghost use Rattle.kq_model.specs.Call.{call};
ghost use Rattle.kq_model.specs.Retrieval.{retrieval};
ghost use Rattle.kq_model.specs.Ticks.{last_moment};
ghost use Rattle.kq_kevent.specs.Foretold.{IsNextOf, is_due};
ghost use Rattle.kq_kevent.specs.Owned.{caller};

use crate::Kq;
use crate::clock::LAST_MOMENT;
use crate::look::look_in;
use kq_model::{Key, Views};

/// One more, where it counts. It is apart for the prover alone, so that a turn of the loop is one case.
fn one_more(count: u32, counts: bool) -> u32
    requires { count + 1 < 2 ^ 32 }
    ensures { result ≡ count + (if counts then 1 else 0) }
{
    if counts { count + 1 } else { count }
}

impl Kq {
    /// The first moment of the clock after `now` at which a timer expires, whether it is enabled or not; none where no
    /// timer does up to the last moment. It costs a walk over the knotes.
    pub fn next_expiry(&self, now: u64) -> Option<u64>
        requires { now ≤ last_moment }
        ensures { IsNextOf now self.now.kq.knotes result }
    {
        let soonest = self.next_moment(now, now, LAST_MOMENT);
        if soonest > LAST_MOMENT {
            return None;
        }
        Some(soonest)
    }

    /// Whether an event is delivered of the key's knote.
    fn is_due<V: Views>(&self, key: Key, views: &V) -> bool
        ensures { result ≡ is_due (V.sees views.now) self.now.kq.knotes key }
    {
        let Some(knote) = self.knotes.get(key) else {
            return false;
        };
        look_in(views, &knote).is_some()
    }

    /// How many events [`Kq::call`] with no changes and this room would give now. It costs a walk over the queue.
    pub fn pending<V: Views>(&self, room: u32, views: &V) -> u32
        ensures pending { result ≡ length (retrieval (V.sees views.now) room self.now.kq).events }

        // These are the events of the call's answer.
        ensures called { (call (caller (V.sees views.now) self.now) room [] self.now.kq).reply
            ≡ Events (retrieval (V.sees views.now) room self.now.kq).events }
    {
        // For the prover alone, which is told by it what the type keeps.
        let _ = &self.owner;
        self.count_due(room, views)
    }

    /// How many keys of the queue have a knote of which an event is delivered, but at most `room`.
    fn count_due<V: Views>(&self, room: u32, views: &V) -> u32
        ensures { result ≡ min room (count_by (is_due (V.sees views.now) self.now.kq.knotes) self.now.kq.queue) }
    {
        let mut count = 0;
        let mut next = self.knotes.front();
        for _turn in 0..self.knotes.queue_len() {
            if count == room {
                return count;
            }
            let Some(key) = next else {
                return count;
            };
            count = one_more(count, self.is_due(key, views));
            next = self.knotes.behind(key);
        }
        count
    }
}
