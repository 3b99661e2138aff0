//! What a record does to all live kqueues.
ghost use Rattle.std.specs.Prelude.{◌≡◌, ◌++◌, ◌<◌, ◌≤◌, ℕ, [], map, true, nat_eq, None};
ghost use Rattle.std.specs.Prelude.{Some, All, IfOk, IfSome};
ghost use Rattle.std.specs.Prelude.{OnErr, OnOk};
ghost use Rattle.std.specs.Map.{keys_of, lookup};
ghost use Rattle.std.specs.Option.{option_map};
ghost use Rattle.kq_model.specs.declared.object.Target.TheVariants.{Own};
ghost use Rattle.kq_model.specs.Following.{all_forks};
ghost use Rattle.kq_model.specs.Moment.{Moment};
ghost use Rattle.kq_model.specs.System.{born};
ghost use Rattle.kq_model.specs.Ticks.{last_moment};
ghost use Rattle.kq_process.specs.Effects.{pairs_in};
ghost use Rattle.kq_system.specs.SystemState.{live_of, AreOfVersion, AreUpTo, HaveStayed, IsCalled, IsQuiet};
ghost use Rattle.kq_system.specs.SystemState.{NumberedKqueue, happened_to_all, ticked};

use crate::kqueues::Kqueues;
use crate::live::Live;
use crate::renewing::renew;
use crate::showing::{drop_ended, show_concerned};
use crate::ticking::ring_timed;
use crate::watching::watch_all;
use indexmap::IndexMap;
use kq_kevent::Kq;
use kq_model::{Change, Hint, Memory, Reply, Target, Version, Views};

/// So few kqueues are all shown a record.
const FEW: usize = 1;

/// A kqueue whose own number was closed ends. In each of the others the knotes of the numbers that
/// were closed in its process are gone, and then the knotes hear the hints.
pub fn happen_to_all<V: Views>(
    live: &mut Kqueues,
    pairs: &[(u32, u32)],
    hints: &[(Target, Hint)],
    views: &V,
)
    requires { all_forks hints.now ≡ [] }
    ensures happened { map live_of live.new.entries
        ≡ happened_to_all (pairs_in pairs.now) hints.now (V.sees views.now) (map live_of live.old.entries) }
    ensures stayed { HaveStayed live.old.entries live.new.entries }
{
    if is_quiet(pairs, hints) {
        return;
    }
    live.ready = None;
    let Some(round) = next_round(live.live.len(), live.round, hints) else {
        live.live.retain(|_, one| one.happen(pairs, hints, views));
        return;
    };
    let any = show_concerned(
        &mut live.live,
        &live.owned,
        &live.watching,
        round,
        pairs,
        hints,
        views,
    );
    drop_ended(&mut live.live, any);
    live.round = round;
}

/// The round in which a record is shown to those that it concerns alone. None where it is shown to
/// all: where there are so few of them, or a hint is for knotes by themselves, which no index has.
fn next_round(live: usize, round: u64, hints: &[(Target, Hint)]) -> Option<u64>
    ensures later { IfSome result (λ next. round < next) }
    ensures of_others { IfSome result (λ _. All (λ p. p.0 ≡ Own → ⊥) hints.now) }
{
    if live <= FEW {
        return None;
    }
    for hint in hints {
        if hint.0 == Target::Own {
            return None;
        }
    }
    round.checked_add(1)
}

/// The clock goes on for all kqueues. It takes no memory; it costs the timers that expire, and a look at
/// each kqueue that may have timers.
pub fn tick_all(live: &mut Kqueues, from: u64, to: u64)
    requires ordered { from ≤ to }
    requires within { to ≤ last_moment }
    ensures ticked { map live_of live.new.entries
        ≡ map (ticked (record { from = from; to = to })) (map live_of live.old.entries) }
    ensures stayed { HaveStayed live.old.entries live.new.entries }
{
    live.ready = None;
    let Some(round) = next_round(live.live.len(), live.round, &[]) else {
        live.live.retain(|_, one| one.tick(from, to));
        return;
    };
    ring_timed(&mut live.live, &live.watching, round, from, to);
    live.round = round;
}

/// Whether nothing is closed and nobody is told.
fn is_quiet(pairs: &[(u32, u32)], hints: &[(Target, Hint)]) -> bool
    ensures pairs { result ≡ true → pairs.now ≡ [] }
    ensures hints { result ≡ true → hints.now ≡ [] }
{
    pairs.is_empty() && hints.is_empty()
}

/// A call on the kqueue that was made at a place. Where it is not live, nothing comes of the call.
pub fn call_on<V: Views>(
    live: &mut Kqueues,
    kqueue: u64,
    changes: &[Change],
    room: u32,
    views: &V,
) -> Result<Reply, Memory>
    ensures called { IfOk result (λ reply. (m : Moment) → IsQuiet m → m.views ≡ V.sees views.now
        → AreOfVersion m.version live.old.entries
        → m.call ≡ Some (record { kqueue = kqueue; changes = changes.now; room = room })
        → IsCalled m (record { kqueue = kqueue; changes = changes.now; room = room })
        (map live_of live.old.entries) (map live_of live.new.entries) reply) }
    ensures stayed { HaveStayed live.old.entries live.new.entries }
    ensures memory { OnErr result (map live_of live.new.entries ≡ map live_of live.old.entries) }
{
    renew(live)?;
    live.ready = None;
    let Some(owner) = owner_of(&live.live, kqueue) else {
        return Ok(Reply::Done);
    };
    watch_all(&mut live.watching, kqueue, owner, changes, views)?;
    let Some(one) = live.live.get_mut(&kqueue) else {
        unreachable!();
    };
    one.kq.call(changes, room, views)
}

/// The process of the kqueue that was made at a place, where it is live.
pub fn owner_of(live: &IndexMap<u64, Live>, kqueue: u64) -> Option<u32>
    ensures { result ≡ option_map (λ (v : NumberedKqueue). v.kq.owner) (lookup (nat_eq kqueue) live.now.entries) }
{
    match live.get(&kqueue) {
        Some(one) => Some(one.kq.owner()),
        None => None,
    }
}

/// Room for the birth of a kqueue at a place, where it is wanted; else nothing.
pub fn reserve_one(live: &mut Kqueues, wanted: bool, place: u64, pid: u32) -> Result<(), Memory>
    ensures entries { live.new.entries ≡ live.old.entries }
    ensures ready { OnOk result (wanted ≡ true → live.new.ready ≡ Some (place, pid)) }
    ensures memory { OnErr result (wanted ≡ true) }
{
    if wanted {
        renew(live)?;
    }
    prepare_one(live, wanted, place, pid)
}

/// Makes the room for a birth at a place, where it is wanted, and notes for which place and process it is there.
fn prepare_one(live: &mut Kqueues, wanted: bool, place: u64, pid: u32) -> Result<(), Memory>
    ensures entries { live.new.entries ≡ live.old.entries }
    ensures ready { OnOk result (wanted ≡ true → live.new.ready ≡ Some (place, pid)) }
    ensures memory { OnErr result (wanted ≡ true) }
{
    live.ready = None;
    if wanted {
        live.live.reserve(1)?;
        live.owned.add(pid, place)?;
        live.ready = Some((place, pid));
    }
    Ok(())
}

/// A kqueue that goes by this version of the trace's format is made by the record at a place, later than all others.
pub fn bear(live: &mut Kqueues, version: Version, place: u64, pid: u32, number: u32)
    requires ready { live.old.ready ≡ Some (place, pid) }
    requires absent { lookup (nat_eq place) live.old.entries ≡ None }
    ensures born { map live_of live.new.entries
        ≡ map live_of live.old.entries ++ born place (Some (record { pid = pid; number = number })) }
    ensures version { AreOfVersion version live.old.entries → AreOfVersion version live.new.entries }
    ensures up_to { (most : ℕ) → place ≤ most → AreUpTo most (keys_of live.old.entries)
        → AreUpTo most (keys_of live.new.entries) }
{
    live.ready = None;
    let kq = Kq::in_version(*live.live.allocator(), pid, version);
    let one = Live {
        number,
        ended: false,
        shown: 0,
        kq,
    };
    match live.live.insert(place, one) {
        Ok(_) => {}
        Err(_) => unreachable!(),
    }
}
