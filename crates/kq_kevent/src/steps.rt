//! A kevent call in two steps, with a look at the queue between them.

ghost use Rattle.std.specs.Prelude.{◌≡◌, ◌≤◌, ◌+◌, [], length, max, min, IfOk, IsOk, OnErr};
ghost use Rattle.kq_model.specs.CallLaws.{IsAnswer};
ghost use Rattle.kq_model.specs.Hearing.{listed};
ghost use Rattle.kq_model.specs.Kqueue.{Kqueue};
ghost use Rattle.kq_model.specs.Recast.{tallied, IsTallied};
ghost use Rattle.kq_model.specs.WatchedNumbers.{WatchTheirNumbers};
ghost use Rattle.kq_kevent.specs.Beginning.{begun, read, answer_after, answer_of_entries, IsCallInSteps};
ghost use Rattle.kq_kevent.specs.Beginning.{IsTalliedBeginning};
ghost use Rattle.kq_kevent.specs.Ending.{answer_of};
ghost use Rattle.kq_kevent.specs.Owned.{caller, limit};

use crate::Kq;
use crate::call::{answer, reads_pending, timers_in};
use crate::process::Ending;
use kq_model::{Change, Kevent, Memory, Reply, Views};

/// The answer that has the entries that were placed; none where there are none.
#[tactic(auto, unfolding(crate::specs::Beginning::answer_of_entries))]
fn entries(placed: Vec<Kevent>) -> Option<Reply>
    ensures { result ≡ answer_of_entries placed.items }
{
    if reads_pending(&placed) {
        return None;
    }
    Some(answer(placed))
}

/// The answer of a call whose changes came to this end; none where it goes on to read events.
#[tactic(auto, unfolding(crate::specs::Beginning::answer_after, kq_model::specs::Call::ended))]
fn answer_at(ending: Ending, placed: Vec<Kevent>) -> Option<Reply>
    ensures { result ≡ answer_after placed.items (answer_of ending placed.items) }
{
    match ending {
        Ending::Ended(Some(error)) => Some(Reply::Failed(error)),
        Ending::Ended(None) => Some(answer(placed)),
        Ending::Through => entries(placed),
    }
}

impl Kq {
    /// The first step of a kevent call: all changes in order, with an entry for each that fails or asks
    /// for a receipt. The answer is that of [`Kq::call`] where the call reads no events: entries were
    /// placed, or a change ended it for want of room. None where it goes on to [`Kq::read`]. After
    /// `Memory` the kqueue is as it was.
    pub fn begin<V: Views>(
        &mut self,
        changes: &[Change],
        room: u32,
        views: &V,
    ) -> Result<Option<Reply>, Memory>
        ensures begun { IfOk result (λ answer. record { kq = self.new.kq; answer = answer }
            ≡ begun (caller (V.sees views.now) self.old) room changes.now self.old.kq) }

        // With `read` behind it, where there is no answer yet, this is the call.
        ensures steps { IsCallInSteps (caller (V.sees views.now) self.old) room changes.now self.old.kq }

        // The same in the words of the definitions, which keep all that was heard.
        ensures model { IfOk result (λ answer. (m : Kqueue listed) → self.old.kq ≡ tallied m
            → IsTalliedBeginning self.new.kq answer
            (begun (caller (V.sees views.now) self.old) room changes.now m)) }

        // Where the READ, WRITE and VNODE knotes watch what their numbers name, they still do.
        ensures named { IfOk result (λ _. WatchTheirNumbers (V.sees views.now) self.old.owner self.old.kq
            → WatchTheirNumbers (V.sees views.now) self.old.owner self.new.kq) }

        ensures owner { self.new.owner ≡ self.old.owner }
        ensures version { self.new.version ≡ self.old.version }
        // Room for each change is made first; what was used of it is that of the knotes that came.
        ensures limit { IfOk result (λ _.
            limit self.new ≡ length self.old.kq.knotes + max self.old.room (length changes.now)) }
        ensures room { self.old.room ≤ self.new.room + length changes.now }

        ensures err { OnErr result (self.new.kq ≡ self.old.kq) }

        // Memory comes only where knotes or entries need a place that was not reserved.
        ensures ok { length changes.now ≤ self.old.room → min room (length changes.now) ≡ 0 → IsOk result }
    {
        self.reserve_for(changes.len(), timers_in(changes))?;
        let room = room as usize;
        let most = room.min(changes.len());
        let mut placed = Vec::with_capacity(self.knotes.allocator(), most)?;
        let ending = self.process(changes, room, &mut placed, views);
        Ok(answer_at(ending, placed))
    }

    /// The second step of a kevent call: at most `room` pending events, in the order of the queue as it
    /// stands. It is a call without changes. After `Memory` the kqueue is as it was.
    pub fn read<V: Views>(&mut self, room: u32, views: &V) -> Result<Reply, Memory>
        ensures read { IfOk result (λ reply. record { kq = self.new.kq; reply = reply }
            ≡ read (V.sees views.now) room self.old.kq) }

        // The same in the words of the definitions, which keep all that was heard.
        ensures model { IfOk result (λ reply. (m : Kqueue listed) → self.old.kq ≡ tallied m
            → IsTallied self.new.kq reply (read (V.sees views.now) room m)) }

        // What the answer promises of the kqueue as it stood.
        ensures answer { IfOk result (IsAnswer (V.sees views.now) room self.old.kq self.new.kq) }

        // Where the READ, WRITE and VNODE knotes watch what their numbers name, they still do.
        ensures named { IfOk result (λ _. WatchTheirNumbers (V.sees views.now) self.old.owner self.old.kq
            → WatchTheirNumbers (V.sees views.now) self.old.owner self.new.kq) }

        ensures owner { self.new.owner ≡ self.old.owner }
        ensures version { self.new.version ≡ self.old.version }
        ensures limit { IfOk result (λ _. limit self.new ≡ limit self.old) }
        ensures room { self.old.room ≤ self.new.room }

        ensures err { OnErr result (self.new.kq ≡ self.old.kq) }

        // Memory comes only where there are events to return.
        ensures ok { min room (length self.old.kq.queue) ≡ 0 → IsOk result }
    {
        self.call(&[], room, views)
    }
}
