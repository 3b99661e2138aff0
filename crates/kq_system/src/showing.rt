//! How the kqueues that a record concerns are shown it, each once.

ghost use Rattle.std.specs.HashMap.{keys};
ghost use Rattle.std.specs.List.{position_or_len};
ghost use Rattle.std.specs.Prelude.{◌≡◌, ◌||◌, [], false, filter, nat_eq, not};
ghost use Rattle.kq_model.specs.Following.{all_forks};
ghost use Rattle.kq_process.specs.Effects.{pairs_in};
ghost use Rattle.kq_system.specs.Places.{has_place};
ghost use Rattle.kq_system.specs.Showing.{AreShown, Each, IsTold, asks_owned, asks_watching};

use crate::index::Index;
use crate::live::Live;
use indexmap::IndexMap;
use kq_model::{Hint, Target, Views};

/// Whether one of two holds: `||`, apart for the prover alone, so that it is no branch of its callers.
fn either(one: bool, other: bool) -> bool
    ensures { result ≡ (one || other) }
{
    one || other
}

/// Shows the record of a round to the kqueue of a place, where there is one: whether that has ended.
#[inline(always)]
fn show_one<V: Views>(
    live: &mut IndexMap<u64, Live>,
    place: u64,
    round: u64,
    pairs: &[(u32, u32)],
    hints: &[(Target, Hint)],
    views: &V,
) -> bool
    requires { all_forks hints.now ≡ [] }
    ensures { AreShown round (IsTold (pairs_in pairs.now) hints.now (V.sees views.now)) (λ p. nat_eq p place) result
        live.old.entries live.new.entries }
{
    match live.get_mut(&place) {
        Some(one) => one.show(round, pairs, hints, views),
        None => false,
    }
}

/// The index of the kqueue of a place, or how many there are where it is not there. What stands at the guess is
/// looked at first.
fn index_near(live: &IndexMap<u64, Live>, guess: usize, place: u64) -> usize
    ensures { result ≡ position_or_len (nat_eq place) (keys live.now) }
{
    match live.as_slice().get_index(guess) {
        Some((found, _)) if *found == place => guess,
        _ => live.get_index_of(&place).unwrap_or(live.len()),
    }
}

/// Shows the record of a round to the kqueue of a place, where there is one, and looks first at what may stand
/// next: whether that kqueue has ended. What is next then is what stands behind it.
fn show_near<V: Views>(
    live: &mut IndexMap<u64, Live>,
    place: u64,
    next: &mut usize,
    round: u64,
    pairs: &[(u32, u32)],
    hints: &[(Target, Hint)],
    views: &V,
) -> bool
    requires { all_forks hints.now ≡ [] }
    ensures { AreShown round (IsTold (pairs_in pairs.now) hints.now (V.sees views.now)) (λ p. nat_eq p place) result
        live.old.entries live.new.entries }
{
    let index = index_near(live, *next, place);
    *next = index.saturating_add(1);
    match live.get_index_mut(index) {
        Some(one) => one.show(round, pairs, hints, views),
        None => false,
    }
}

/// Shows it to those of some places: whether one of them has ended. The places rise, and kqueues stand in the order
/// of their places, so the next one mostly stands right behind.
#[inline(never)]
fn show_several<V: Views>(
    live: &mut IndexMap<u64, Live>,
    places: &[u64],
    round: u64,
    pairs: &[(u32, u32)],
    hints: &[(Target, Hint)],
    views: &V,
) -> bool
    requires { all_forks hints.now ≡ [] }
    ensures { AreShown round (IsTold (pairs_in pairs.now) hints.now (V.sees views.now))
        (λ p. has_place p places.now) result live.old.entries live.new.entries }
{
    let mut any = false;
    let mut next = 0_usize;
    for place in places {
        let ended = show_near(live, *place, &mut next, round, pairs, hints, views);
        any = either(any, ended);
    }
    any
}

/// Shows it to those of some places, which is most often one, where there is nothing to guess: whether one of
/// them has ended.
#[inline(always)]
fn show_each<V: Views>(
    live: &mut IndexMap<u64, Live>,
    places: &[u64],
    round: u64,
    pairs: &[(u32, u32)],
    hints: &[(Target, Hint)],
    views: &V,
) -> bool
    requires { all_forks hints.now ≡ [] }
    ensures { AreShown round (IsTold (pairs_in pairs.now) hints.now (V.sees views.now))
        (λ p. has_place p places.now) result live.old.entries live.new.entries }
{
    if 1 < places.len() {
        return show_several(live, places, round, pairs, hints, views);
    }
    match places.first() {
        Some(place) => show_one(live, *place, round, pairs, hints, views),
        None => false,
    }
}

/// Shows it to those that it concerns: whether one of them has ended.
pub fn show_concerned<V: Views>(
    live: &mut IndexMap<u64, Live>,
    owned: &Index<u32>,
    watching: &Index<Target>,
    round: u64,
    pairs: &[(u32, u32)],
    hints: &[(Target, Hint)],
    views: &V,
) -> bool
    requires { all_forks hints.now ≡ [] }
    ensures { AreShown round (IsTold (pairs_in pairs.now) hints.now (V.sees views.now))
        (λ p. asks_owned owned.now.table pairs.now p || asks_watching watching.now.table hints.now p) result
        live.old.entries live.new.entries }
{
    let of_pairs = show_owned(live, owned, round, pairs, hints, views);
    let of_hints = show_watching(live, watching, round, pairs, hints, views);
    either(of_pairs, of_hints)
}

/// Takes out those that have ended, where there may be one.
pub fn drop_ended(live: &mut IndexMap<u64, Live>, any: bool)
    requires { any ≡ false → Each (λ place v. v.ended ≡ false) live.old.entries }
    ensures { live.new.entries ≡ filter (λ e. not e.1.ended) live.old.entries }
{
    if any {
        live.retain(|_, one| !one.ended);
    }
}

/// Shows it to those of the processes in which it closes numbers.
fn show_owned<V: Views>(
    live: &mut IndexMap<u64, Live>,
    owned: &Index<u32>,
    round: u64,
    pairs: &[(u32, u32)],
    hints: &[(Target, Hint)],
    views: &V,
) -> bool
    requires { all_forks hints.now ≡ [] }
    ensures { AreShown round (IsTold (pairs_in pairs.now) hints.now (V.sees views.now))
        (asks_owned owned.now.table pairs.now) result live.old.entries live.new.entries }
{
    let mut any = false;
    for pair in pairs {
        let places = owned.at(pair.0);
        let ended = show_each(live, places, round, pairs, hints, views);
        any = either(any, ended);
    }
    any
}

/// Shows it to those that may watch what it has hints for.
fn show_watching<V: Views>(
    live: &mut IndexMap<u64, Live>,
    watching: &Index<Target>,
    round: u64,
    pairs: &[(u32, u32)],
    hints: &[(Target, Hint)],
    views: &V,
) -> bool
    requires { all_forks hints.now ≡ [] }
    ensures { AreShown round (IsTold (pairs_in pairs.now) hints.now (V.sees views.now))
        (asks_watching watching.now.table hints.now) result live.old.entries live.new.entries }
{
    let mut any = false;
    for hint in hints {
        let places = watching.at(hint.0);
        let ended = show_each(live, places, round, pairs, hints, views);
        any = either(any, ended);
    }
    any
}
