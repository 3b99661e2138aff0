//! What is done with one live kqueue: a call of it begins, and its queue gets another order.
ghost use Rattle.std.specs.Prelude.{◌≡◌, [], None, Some, IfOk, MatchOption, OnErr, map, nat_eq};
ghost use Rattle.std.specs.Map.{lookup};
ghost use Rattle.kq_kevent.specs.Arranged.{arranged};
ghost use Rattle.kq_model.specs.Moment.{Moment};
ghost use Rattle.kq_system.specs.Beginning.{with_live_at, IsBegunAt, IsCallSoFar, IsEntry};
ghost use Rattle.kq_system.specs.SystemState.{live_of, AreOfVersion, HaveStayed, IsQuiet};

use crate::all_live::owner_of;
use crate::kqueues::Kqueues;
use crate::renewing::renew;
use crate::watching::watch_all;
use kq_kevent::Kq;
use kq_model::{Change, Key, Memory, Reply, Views};

/// The live kqueue that was made at a place.
pub fn kqueue_at(live: &Kqueues, kqueue: u64) -> Option<&Kq>
    ensures { MatchOption result
        (lookup (nat_eq kqueue) live.now.entries ≡ None)
        (λ kq. IsEntry kqueue live.now.entries kq.now) }
{
    match live.live.get(&kqueue) {
        Some(one) => Some(&one.kq),
        None => None,
    }
}

/// A call on the kqueue that was made at a place begins. Where it is not live, nothing comes of the call.
pub fn begin_on<V: Views>(
    live: &mut Kqueues,
    kqueue: u64,
    changes: &[Change],
    room: u32,
    views: &V,
) -> Result<Option<Reply>, Memory>
    ensures begun { IfOk result (λ answer. (m : Moment) → m.views ≡ V.sees views.now
        → AreOfVersion m.version live.old.entries
        → IsBegunAt m (record { kqueue = kqueue; changes = changes.now; room = room })
        (map live_of live.old.entries) (map live_of live.new.entries) answer) }

    // At two moments of calls in this world, of which the second has no changes.
    ensures steps { IfOk result (λ answer. (m n : Moment) → AreOfVersion m.version live.old.entries
        → IsQuiet m → m.views ≡ V.sees views.now
        → m.call ≡ Some (record { kqueue = kqueue; changes = changes.now; room = room })
        → IsQuiet n → n.views ≡ V.sees views.now → n.version ≡ m.version
        → n.call ≡ Some (record { kqueue = kqueue; changes = []; room = room })
        → IsCallSoFar m n (record { kqueue = kqueue; changes = changes.now; room = room })
        (map live_of live.old.entries) (map live_of live.new.entries) answer) }
    ensures stayed { HaveStayed live.old.entries live.new.entries }
    ensures memory { OnErr result (map live_of live.new.entries ≡ map live_of live.old.entries) }
{
    renew(live)?;
    live.ready = None;
    let Some(owner) = owner_of(&live.live, kqueue) else {
        return Ok(None);
    };
    watch_all(&mut live.watching, kqueue, owner, changes, views)?;
    let Some(one) = live.live.get_mut(&kqueue) else {
        unreachable!();
    };
    one.kq.begin(changes, room, views)
}

/// These keys come first in the queue of the kqueue that was made at a place, where it is live.
pub fn put_first_in(live: &mut Kqueues, kqueue: u64, keys: &[Key])
    ensures arranged { map live_of live.new.entries
        ≡ with_live_at kqueue (λ l. record l.kq { queue = arranged keys.now l.kq.queue })
        (map live_of live.old.entries) }
    ensures stayed { HaveStayed live.old.entries live.new.entries }
{
    live.ready = None;
    let Some(one) = live.live.get_mut(&kqueue) else {
        return;
    };
    one.kq.put_first(keys);
}
