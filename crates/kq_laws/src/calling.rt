//! One kevent call, with laws over the whole life of its kqueue.

ghost use Rattle.std.specs.Prelude.{◌≡◌, ◌≤◌, ◌+◌, ℕ, length, max, min, IfOk, IsOk, OnErr};
ghost use Rattle.kq_model.specs.declared.key.Key.{Key};
ghost use Rattle.kq_model.specs.Call as kevent;
ghost use Rattle.kq_model.specs.CallLaws.{IsAnswer, IsChangesThenPoll, kqueue_after_changes};
ghost use Rattle.kq_model.specs.Hearing.{listed};
ghost use Rattle.kq_model.specs.Kqueue.{Kqueue};
ghost use Rattle.kq_model.specs.Recast.{IsTallied, tallied};
ghost use Rattle.kq_model.specs.WatchedNumbers.{WatchTheirNumbers};
ghost use Rattle.kq_kevent.specs.Owned.{caller, limit};
ghost use Rattle.kq_laws.specs.Clears.{ReturnsNewsAlone};
ghost use Rattle.kq_laws.specs.Timers.{TellsExpirations};
ghost use Rattle.kq_laws.specs.Wakes.{LosesNoWakeUp};

use kq_kevent::Kq;
use kq_model::{Change, Memory, Reply, Views};

/// One kevent call, as [`Kq::call`], with what a user may rely on over the whole life of the kqueue, whatever
/// happened to it since it was made.
pub fn call<V: Views>(
    kqueue: &mut Kq,
    changes: &[Change],
    room: u32,
    views: &V,
) -> Result<Reply, Memory>
    // The data of a timer's event is the number of its expirations since it was last returned or started.
    ensures timers { IfOk result (λ reply. (ident : ℕ)
        → TellsExpirations ident (caller (V.sees views.now) kqueue.old) room changes.now kqueue.old.kq reply) }

    // What is level-triggered and enabled, and whose condition holds, is returned where there is room. So is the notice
    // of a child.
    ensures wakes { IfOk result (LosesNoWakeUp (caller (V.sees views.now) kqueue.old) room changes.now kqueue.old.kq) }

    // Where neither call places an entry, a knote with CLEAR and no notice that was returned is returned again only
    // where something was told to it since.
    ensures clears { IfOk result (λ reply. (key : Key)
        → ReturnsNewsAlone key (caller (V.sees views.now) kqueue.old) room changes.now kqueue.old.kq reply) }

    // What follows is what `Kq::call` promises.
    ensures called { IfOk result (λ reply. record { kq = kqueue.new.kq; reply = reply }
        ≡ kevent.call (caller (V.sees views.now) kqueue.old) room changes.now kqueue.old.kq) }

    // The same in the words of the definitions, which keep all that was heard.
    ensures model { IfOk result (λ reply. (m : Kqueue listed) → kqueue.old.kq ≡ tallied m
        → IsTallied kqueue.new.kq reply (kevent.call (caller (V.sees views.now) kqueue.old) room changes.now m)) }

    // The answer has either entries alone, or events of what the changes left; and a call whose changes are all quiet
    // is these changes with room 0 and then a poll.
    ensures answer { IfOk result (IsAnswer (V.sees views.now) room
        (kqueue_after_changes (caller (V.sees views.now) kqueue.old) room changes.now kqueue.old.kq) kqueue.new.kq) }
    ensures poll { IsChangesThenPoll (caller (V.sees views.now) kqueue.old) room changes.now kqueue.old.kq }

    // Where the READ, WRITE and VNODE knotes watch what their numbers name, they still do.
    ensures named { IfOk result (λ _. WatchTheirNumbers (V.sees views.now) kqueue.old.owner kqueue.old.kq
        → WatchTheirNumbers (V.sees views.now) kqueue.old.owner kqueue.new.kq) }

    ensures owner { kqueue.new.owner ≡ kqueue.old.owner }
    ensures version { kqueue.new.version ≡ kqueue.old.version }
    // Room for each change is made first; what was used of it is that of the knotes that came.
    ensures limit { IfOk result (λ _.
        limit kqueue.new ≡ length kqueue.old.kq.knotes + max kqueue.old.room (length changes.now)) }
    ensures room { kqueue.old.room ≤ kqueue.new.room + length changes.now }

    ensures err { OnErr result (kqueue.new.kq ≡ kqueue.old.kq) }

    // Memory comes only where knotes or events need a place that was not reserved.
    ensures ok { length changes.now ≤ kqueue.old.room
        → min room (length kqueue.old.kq.queue + length changes.now) ≡ 0 → IsOk result }
{
    // Its contract says what every kqueue keeps.
    let _ = kqueue.knotes();
    kqueue.call(changes, room, views)
}
