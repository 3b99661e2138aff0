//! A kevent call in one: its changes, and pending events where no entry was placed.

ghost use Rattle.std.specs.Prelude.{◌≡◌, ◌↔◌, ◌≤◌, ◌+◌, [], length, max, min, IsTrue};
ghost use Rattle.std.specs.Prelude.{IfOk, IsOk, OnErr};
ghost use Rattle.kq_model.specs.Call.{call};
ghost use Rattle.kq_model.specs.Hearing.{listed};
ghost use Rattle.kq_model.specs.Kqueue.{Kqueue};
ghost use Rattle.kq_model.specs.Recast.{tallied, IsTallied};
ghost use Rattle.kq_model.specs.CallLaws.{IsAnswer, kqueue_after_changes, IsChangesThenPoll};
ghost use Rattle.kq_model.specs.WatchedNumbers.{WatchTheirNumbers};
ghost use Rattle.kq_kevent.specs.Owned.{caller, limit};

use crate::Kq;
use crate::process::Ending;
use kq_model::{Change, Filter, Kevent, Memory, Reply, Series, Views};

/// The answer that has these events, and keeps no memory besides.
pub fn answer(mut events: Vec<Kevent>) -> Reply
    ensures { result ≡ Reply.Events events.items }
{
    events.shrink_to_fit();
    Reply::Events(Series::from_vec(events))
}

/// Whether a call goes on to read pending events: where no entry was placed.
pub fn reads_pending(placed: &[Kevent]) -> bool
    ensures { IsTrue result ↔ (placed.now ≡ []) }
{
    placed.is_empty()
}

/// How many changes may make a timer.
pub fn timers_in(changes: &[Change]) -> usize
    ensures { result ≤ length changes.now }
{
    let mut timers = 0;
    for change in changes {
        if change.filter == Filter::Timer {
            timers += 1;
        }
    }
    timers
}

impl Kq {
    /// One kevent call, which waits for nothing: all changes in order, with an entry for each
    /// that fails or asks for a receipt; then, where no entry was placed and no change ended the
    /// call, at most `room` pending events. After `Memory` the kqueue is as it was.
    pub fn call<V: Views>(
        &mut self,
        changes: &[Change],
        room: u32,
        views: &V,
    ) -> Result<Reply, Memory>
        ensures called { IfOk result (λ reply. record { kq = self.new.kq; reply = reply }
            ≡ call (caller (V.sees views.now) self.old) room changes.now self.old.kq) }

        // The same in the words of the definitions, which keep all that was heard.
        ensures model { IfOk result (λ reply. (m : Kqueue listed) → self.old.kq ≡ tallied m
            → IsTallied self.new.kq reply (call (caller (V.sees views.now) self.old) room changes.now m)) }

        // What the answer promises of the kqueue as the changes left it, and that a call whose
        // changes are all quiet is these changes with room 0 and then a poll.
        ensures answer { IfOk result (IsAnswer (V.sees views.now) room
            (kqueue_after_changes (caller (V.sees views.now) self.old) room changes.now self.old.kq) self.new.kq) }
        ensures poll { IsChangesThenPoll (caller (V.sees views.now) self.old) room changes.now self.old.kq }

        // Where the READ, WRITE and VNODE knotes watch what their numbers name, they still do.
        ensures named { IfOk result (λ _. WatchTheirNumbers (V.sees views.now) self.old.owner self.old.kq
            → WatchTheirNumbers (V.sees views.now) self.old.owner self.new.kq) }

        ensures owner { self.new.owner ≡ self.old.owner }
        ensures version { self.new.version ≡ self.old.version }
        // Room for each change is made first; what was used of it is that of the knotes that came.
        ensures limit { IfOk result (λ _.
            limit self.new ≡ length self.old.kq.knotes + max self.old.room (length changes.now)) }
        ensures room { self.old.room ≤ self.new.room + length changes.now }

        ensures err { OnErr result (self.new.kq ≡ self.old.kq) }

        // Memory comes only where knotes or events need a place that was not reserved.
        ensures ok { length changes.now ≤ self.old.room
            → min room (length self.old.kq.queue + length changes.now) ≡ 0 → IsOk result }
    {
        self.reserve_for(changes.len(), timers_in(changes))?;
        let room = room as usize;
        let most = room.min(self.knotes.queue_len().saturating_add(changes.len()));
        let mut events = Vec::with_capacity(self.knotes.allocator(), most)?;
        match self.process(changes, room, &mut events, views) {
            Ending::Ended(Some(error)) => Ok(Reply::Failed(error)),
            Ending::Ended(None) => Ok(answer(events)),
            Ending::Through => {
                if reads_pending(&events) {
                    self.retrieve(room, &mut events, views);
                }
                Ok(answer(events))
            }
        }
    }
}
