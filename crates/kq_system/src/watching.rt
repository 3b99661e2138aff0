//! Where a kqueue is found for its knotes, before a call of it makes them.

ghost use Rattle.std.specs.Prelude.{◌≡◌, All, None, OnOk, Some, true};
ghost use Rattle.kq_model.specs.Bits.{add, asks};
ghost use Rattle.kq_model.specs.Knote.{is_timer};
ghost use Rattle.kq_model.specs.Targets.{target_of};
ghost use Rattle.kq_model.specs.contracts.object.TargetPartialEq.TheImpl as target_equal;
ghost use Rattle.kq_model.specs.declared.object.Target.TheVariants.{Own};
ghost use Rattle.kq_system.specs.Places.{Grows, has_place};
ghost use Rattle.kq_system.specs.Showing.{IsFound, IsListed, places_of};

use crate::index::Index;
use bitflags::Flags;
use kq_model::{Change, EvFlags, Filter, Memory, Target, Views, target_of};

#[tactic(auto, unfolding(kq_model::specs::Knote::is_timer))]
fn is_timer(filter: Filter) -> bool
    ensures { result ≡ is_timer filter }
{
    matches!(filter, Filter::Timer)
}

/// Puts a kqueue under a target that others may watch too; of what is its own there is nothing to find.
fn watch_shared(
    watching: &mut Index<Target>,
    place: u64,
    target: Option<Target>,
) -> Result<(), Memory>
    ensures grows { Grows target_equal.eq-value.it watching.old.table watching.new.table }
    ensures listed { OnOk result ((t : Target) → target ≡ Some t → (t ≡ Own → ⊥)
        → has_place place (places_of watching.new.table t) ≡ true) }
{
    match target {
        None | Some(Target::Own) => Ok(()),
        Some(target) => watching.add(target, place),
    }
}

/// Puts a kqueue where it is found for a knote of this filter and target. Kqueues that may have
/// timers stand under what is its own, so that the clock finds them.
pub fn watch_subject(
    watching: &mut Index<Target>,
    place: u64,
    filter: Filter,
    target: Option<Target>,
) -> Result<(), Memory>
    ensures grows { Grows target_equal.eq-value.it watching.old.table watching.new.table }
    ensures found { OnOk result (IsFound place watching.new.table filter target) }
{
    watch_shared(watching, place, target)?;
    if is_timer(filter) {
        watching.add(Target::Own, place)?;
    }
    Ok(())
}

/// Puts a kqueue where it is found for the knote that a change may make.
fn watch_one<V: Views>(
    watching: &mut Index<Target>,
    place: u64,
    owner: u32,
    change: &Change,
    views: &V,
) -> Result<(), Memory>
    ensures grows { Grows target_equal.eq-value.it watching.old.table watching.new.table }
    ensures listed { OnOk result (asks change.now.flags add ≡ true
        → IsListed place watching.new.table change.now.filter change.now.ident
        (target_of (V.sees views.now) owner change.now.filter change.now.ident)) }
{
    if !change.flags.contains(EvFlags::ADD) {
        return Ok(());
    }
    let target = target_of(owner, change, views);
    watch_subject(watching, place, change.filter, target)
}

/// Puts a kqueue where it is found for the knotes that these changes may make. After `Memory` it may
/// be found for some of them.
pub fn watch_all<V: Views>(
    watching: &mut Index<Target>,
    place: u64,
    owner: u32,
    changes: &[Change],
    views: &V,
) -> Result<(), Memory>
    ensures grows { Grows target_equal.eq-value.it watching.old.table watching.new.table }
    ensures listed { OnOk result (All (λ c. asks c.flags add ≡ true
        → IsListed place watching.new.table c.filter c.ident (target_of (V.sees views.now) owner c.filter c.ident))
        changes.now) }
{
    for change in changes {
        watch_one(watching, place, owner, change, views)?;
    }
    Ok(())
}
