//! Indexes made anew of what there is, so that what is gone takes no room and no time.

ghost use Rattle.std.specs.Prelude.{◌≡◌, nat_eq, IfOk, OnErr, OnOk, None, true};
ghost use Rattle.kq_model.specs.Kqueue.{HaveOwnKeys};
ghost use Rattle.kq_model.specs.Subjects.{HaveSubjects};
ghost use Rattle.kq_model.specs.contracts.object.TargetPartialEq.TheImpl as target_equal;
ghost use Rattle.kq_system.specs.Places.{Grows, has_place, places_at};
ghost use Rattle.kq_system.specs.Showing.{Each, IsListed};

use crate::index::Index;
use crate::kqueues::Kqueues;
use crate::live::Live;
use crate::watching::watch_subject;
use indexmap::IndexMap;
use kq_knote::{Knote, Knotes};
use kq_model::{Memory, Target};
use std::alloc::Global;

/// Makes an index anew that is full. A step of this was paid for by something that was put in since the last time.
pub fn renew(live: &mut Kqueues) -> Result<(), Memory>
    ensures { live.new.entries ≡ live.old.entries }
{
    live.ready = None;
    renew_owned(live)?;
    renew_watching(live)
}

fn renew_owned(live: &mut Kqueues) -> Result<(), Memory>
    requires { live.old.ready ≡ None }
    ensures { live.new ≡ live.old }
{
    if !live.owned.is_full() {
        return Ok(());
    }
    live.owned = owners(*live.live.allocator(), &live.live)?;
    Ok(())
}

fn renew_watching(live: &mut Kqueues) -> Result<(), Memory>
    ensures { live.new ≡ live.old }
{
    if !live.watching.is_full() {
        return Ok(());
    }
    live.watching = watchers(*live.live.allocator(), &live.live)?;
    Ok(())
}

/// The live kqueues by their owners.
fn owners(alloc: Global, live: &IndexMap<u64, Live>) -> Result<Index<u32>, Memory>
    ensures { IfOk result (λ owned. Each
        (λ place v. has_place place (places_at nat_eq owned.table v.kq.owner) ≡ true) live.now.entries) }
{
    let mut owned = Index::new(alloc);
    for at in 0..live.len() {
        let Some((place, one)) = live.get_index(at) else {
            return Ok(owned);
        };
        owned.add(one.kq.owner(), *place)?;
    }
    owned.settle(0);
    Ok(owned)
}

/// The live kqueues by what their knotes are found by.
fn watchers(alloc: Global, live: &IndexMap<u64, Live>) -> Result<Index<Target>, Memory>
    ensures { IfOk result (λ watching. Each
        (λ place v. HaveSubjects (IsListed place watching.table) v.kq.kq.knotes) live.now.entries) }
{
    let mut watching = Index::new(alloc);
    let mut steps = 0_usize;
    for at in 0..live.len() {
        let Some((place, one)) = live.get_index(at) else {
            return Ok(watching);
        };
        let knotes = one.kq.knotes();
        watch_knotes(&mut watching, *place, knotes)?;
        steps = steps.saturating_add(knotes.len());
    }
    watching.settle(steps);
    Ok(watching)
}

/// Puts a kqueue where it is found for its knotes.
fn watch_knotes(watching: &mut Index<Target>, place: u64, knotes: &Knotes) -> Result<(), Memory>
    requires { HaveOwnKeys knotes.now.knotes }
    ensures grows { Grows target_equal.eq-value.it watching.old.table watching.new.table }
    ensures listed { OnOk result (HaveSubjects (IsListed place watching.new.table) knotes.now.knotes) }
{
    let mut next = knotes.first();
    for _step in 0..knotes.len() {
        let Some(knote) = next else {
            return Ok(());
        };
        watch_knote(watching, place, &knote)?;
        next = knotes.next_after(knote.key);
    }
    Ok(())
}

/// Puts a kqueue where it is found for a knote of it.
fn watch_knote(watching: &mut Index<Target>, place: u64, knote: &Knote) -> Result<(), Memory>
    ensures grows { Grows target_equal.eq-value.it watching.old.table watching.new.table }
    ensures listed { OnOk result
        (IsListed place watching.new.table knote.now.key.filter knote.now.key.ident knote.now.target) }
{
    watch_subject(watching, place, knote.key.filter, knote.target)
}
