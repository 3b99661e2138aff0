//! The descriptors of a process, counted, listed, held or released one after the other.

ghost use Rattle.std.specs.Prelude.{◌≡◌, ℕ, ◌∷◌, [], OnOk, map, ◌+◌, ◌<◌, ◌≤◌};
ghost use Rattle.std.specs.Prelude.{◌++◌, length, vec_len, vec_capacity};
ghost use Rattle.kq_model.specs.Holding.{release, release_hint, release_hints, option_list};
ghost use Rattle.kq_model.specs.Holders.{all_held, all_released};
ghost use Rattle.kq_model.specs.declared.object.Named.{Named as Name};
ghost use Rattle.kq_objects.specs.Holding.{CanRelease};
ghost use Rattle.kq_objects.specs.Objects.{objects_of};
ghost use Rattle.kq_process.specs.Counts.{CanHoldEach, CanReleaseEach, names_in};
ghost use Rattle.kq_process.specs.Slots.{filled};

use kq_model::{Hint, Memory, Named, Target};
use kq_objects::Objects;

/// How many of these slots are full.
pub fn count(slots: &[(u32, Option<Named>)]) -> usize
    ensures { result ≡ length (filled slots.now) }
{
    slots.iter().filter(|slot| slot.1.is_some()).count()
}

/// The numbers of the full slots, each with the process's pid.
pub fn put_pairs(
    pairs: &mut Vec<(u32, u32)>,
    pid: u32,
    slots: &[(u32, Option<Named>)],
) -> Result<(), Memory>
    ensures { OnOk result (pairs.new.items
        ≡ pairs.old.items ++ map (λ (d : ℕ × Name). (pid, d.0)) (filled slots.now)) }
{
    pairs.reserve(slots.len())?;
    for slot in slots {
        if slot.1.is_some() {
            pairs.push((pid, slot.0))?;
        }
    }
    Ok(())
}

/// The descriptor of each full slot names its object too.
pub fn hold_each(objects: &mut Objects, slots: &[(u32, Option<Named>)])
    requires { CanHoldEach (names_in (filled slots.now)) (objects_of objects.old) }
    ensures { objects_of objects.new ≡ all_held (names_in (filled slots.now)) (objects_of objects.old) }
{
    for slot in slots {
        if let Some(named) = slot.1 {
            objects.hold(named);
        }
    }
}

/// The descriptor of each full slot names its object no longer. The hints go behind those that are there.
pub fn release_each(
    objects: &mut Objects,
    slots: &[(u32, Option<Named>)],
    hints: &mut Vec<(Target, Hint)>,
)
    requires can { CanReleaseEach (names_in (filled slots.now)) (objects_of objects.old) }
    requires room { vec_len hints.old + length (filled slots.now) ≤ vec_capacity hints.old }
    ensures objects { objects_of objects.new ≡ all_released (names_in (filled slots.now)) (objects_of objects.old) }
    ensures hints { hints.new.items
        ≡ hints.old.items ++ release_hints (names_in (filled slots.now)) (objects_of objects.old) }
    ensures len { vec_len hints.new ≤ vec_len hints.old + length (filled slots.now) }
    ensures capacity { vec_capacity hints.old ≤ vec_capacity hints.new }
{
    for slot in slots {
        if let Some(named) = slot.1 {
            release_one(objects, named, hints);
        }
    }
}

/// A descriptor names the object no longer. Its hint goes behind those that are there.
#[tactic(auto, unfolding(kq_model::specs::Holding::option_list))]
pub fn release_one(objects: &mut Objects, named: Named, hints: &mut Vec<(Target, Hint)>)
    requires can { CanRelease named (objects_of objects.old) }
    requires room { vec_len hints.old < vec_capacity hints.old }
    ensures objects { objects_of objects.new ≡ release named (objects_of objects.old) }
    ensures hints { hints.new.items ≡ hints.old.items ++ option_list (release_hint named (objects_of objects.old)) }
    ensures len { vec_len hints.new ≤ vec_len hints.old + 1 }
    ensures capacity { vec_capacity hints.old ≤ vec_capacity hints.new }
{
    if let Some(hint) = objects.release(named) {
        say(hints, hint);
    }
}

/// A hint more, for which there is room.
pub fn say(hints: &mut Vec<(Target, Hint)>, hint: (Target, Hint))
    requires { vec_len hints.old < vec_capacity hints.old }
    ensures hints { hints.new.items ≡ hints.old.items ++ hint ∷ [] }
    ensures len { vec_len hints.new ≤ vec_len hints.old + 1 }
    ensures capacity { vec_capacity hints.old ≤ vec_capacity hints.new }
{
    let _ = hints.push(hint);
}
