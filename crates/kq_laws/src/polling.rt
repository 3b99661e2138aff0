//! A kevent call without changes, with the same laws.

ghost use Rattle.std.specs.Prelude.{◌≡◌, ◌≤◌, ℕ, [], length, min, IfOk, IsOk, OnErr};
ghost use Rattle.kq_model.specs.declared.key.Key.{Key};
ghost use Rattle.kq_model.specs.Call as kevent;
ghost use Rattle.kq_model.specs.CallLaws.{IsAnswer, IsChangesThenPoll};
ghost use Rattle.kq_model.specs.Hearing.{listed};
ghost use Rattle.kq_model.specs.Kqueue.{Kqueue};
ghost use Rattle.kq_model.specs.Recast.{IsTallied, tallied};
ghost use Rattle.kq_model.specs.WatchedNumbers.{WatchTheirNumbers};
ghost use Rattle.kq_kevent.specs.Owned.{caller, limit};
ghost use Rattle.kq_laws.specs.Clears.{ReturnsNewsAlone};
ghost use Rattle.kq_laws.specs.Timers.{TellsExpirations};
ghost use Rattle.kq_laws.specs.Wakes.{LosesNoWakeUp};

use crate::call;
use kq_kevent::Kq;
use kq_model::{Memory, Reply, Views};

/// A kevent call without changes, for at most `room` events.
pub fn poll<V: Views>(kqueue: &mut Kq, room: u32, views: &V) -> Result<Reply, Memory>
    ensures timers { IfOk result (λ reply. (ident : ℕ)
        → TellsExpirations ident (caller (V.sees views.now) kqueue.old) room [] kqueue.old.kq reply) }
    ensures wakes { IfOk result (LosesNoWakeUp (caller (V.sees views.now) kqueue.old) room [] kqueue.old.kq) }

    // Where neither call places an entry, a knote with CLEAR and no notice that was returned is returned again only
    // where something was told to it since.
    ensures clears { IfOk result (λ reply. (key : Key)
        → ReturnsNewsAlone key (caller (V.sees views.now) kqueue.old) room [] kqueue.old.kq reply) }

    // What follows is what `Kq::call` promises.
    ensures called { IfOk result (λ reply. record { kq = kqueue.new.kq; reply = reply }
        ≡ kevent.call (caller (V.sees views.now) kqueue.old) room [] kqueue.old.kq) }

    // The same in the words of the definitions, which keep all that was heard.
    ensures model { IfOk result (λ reply. (m : Kqueue listed) → kqueue.old.kq ≡ tallied m
        → IsTallied kqueue.new.kq reply (kevent.call (caller (V.sees views.now) kqueue.old) room [] m)) }

    // The answer has events of the kqueue; and a poll with no room before it changes none of them.
    ensures answer { IfOk result (IsAnswer (V.sees views.now) room kqueue.old.kq kqueue.new.kq) }
    ensures poll { IsChangesThenPoll (caller (V.sees views.now) kqueue.old) room [] kqueue.old.kq }

    // Where the READ, WRITE and VNODE knotes watch what their numbers name, they still do.
    ensures named { IfOk result (λ _. WatchTheirNumbers (V.sees views.now) kqueue.old.owner kqueue.old.kq
        → WatchTheirNumbers (V.sees views.now) kqueue.old.owner kqueue.new.kq) }

    ensures owner { kqueue.new.owner ≡ kqueue.old.owner }
    ensures version { kqueue.new.version ≡ kqueue.old.version }
    // No knote comes, and one that is gone leaves its room.
    ensures limit { IfOk result (λ _. limit kqueue.new ≡ limit kqueue.old) }
    ensures room { kqueue.old.room ≤ kqueue.new.room }

    ensures err { OnErr result (kqueue.new.kq ≡ kqueue.old.kq) }

    // Memory comes only where events need a place.
    ensures ok { min room (length kqueue.old.kq.queue) ≡ 0 → IsOk result }
{
    call(kqueue, &[], room, views)
}
