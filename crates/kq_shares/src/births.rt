//! The kqueues that the first records of a trace make, and how they are best dealt.

ghost use Rattle.std.specs.Prelude.{◌≡◌, ◌≤◌, ◌<◌, ◌^◌, ◌∷◌, ◌++◌, ℕ, [], true, false, IfOk, OnOk, length, if◌then◌else◌};
ghost use Rattle.kq_model.specs.declared.event.Event.TheVariants as event_of;
ghost use Rattle.kq_model.specs.Moments.{world_by};
ghost use Rattle.kq_model.specs.Objects.{counted};
ghost use Rattle.kq_model.specs.Plans.{plan};
ghost use Rattle.kq_model.specs.World.{empty_world};
ghost use Rattle.kq_process.specs.World.{last_of, world_of};
ghost use Rattle.kq_shares.specs.Births.{birth_of, births_after};

use kq_model::{Event, Memory};
use kq_process::World;
use kq_system::Dealing;
use std::alloc::Global;

/// So many seeds are tried.
const SEEDS: u32 = 64;

/// So many births tell how even a dealing is.
const TELLING_BIRTHS: usize = 4_096;

/// There are so many shares at most, each with a world of its own.
pub const MOST_SHARES: u32 = 16;

/// The places of the kqueues that the first records of a trace make.
pub fn births_in(alloc: Global, events: &[Event]) -> Result<Vec<u64>, Memory>
    requires { length events.now < 2 ^ 31 }
    ensures { IfOk result (λ births. births.items ≡ births_after 1 (empty_world counted) events.now) }
{
    let mut world = World::new(alloc)?;
    let mut births = Vec::new(alloc);
    let mut place = 0_u64;
    for event in events {
        place += 1;
        let makes = makes_kqueue(&mut world, place, event)?;
        put_birth(&mut births, makes, place)?;
    }
    Ok(births)
}

/// Adds a place, if a kqueue was made there.
fn put_birth(births: &mut Vec<u64>, makes: bool, place: u64) -> Result<(), Memory>
    ensures { OnOk result (births.new.items ≡ births.old.items ++ (if makes then place ∷ [] else [])) }
{
    if makes {
        births.push(place)?;
    }
    Ok(())
}

/// Takes a world past the record at a place: whether that makes a kqueue.
fn makes_kqueue(world: &mut World, place: u64, event: &Event) -> Result<bool, Memory>
    requires { last_of world.old < place }
    ensures world { OnOk result (world_of world.new
        ≡ world_by place (plan place event.now (world_of world.old)) (world_of world.old)) }
    ensures last { OnOk result (last_of world.new ≡ place) }
    ensures makes { IfOk result (λ makes.
        birth_of place (plan place event.now (world_of world.old)) ≡ if makes then place ∷ [] else []) }
{
    let effect = world.apply(place, event)?;
    if let Err(_why) = effect.verdict {
        return Ok(false);
    }
    Ok(is_kqueue(event))
}

/// Whether a record is that of a new kqueue.
fn is_kqueue(event: &Event) -> bool
    ensures yes { result ≡ true → (pid : ℕ) × (fd : ℕ) × (event.now ≡ event_of.Kqueue pid fd) }
    ensures no { result ≡ false → (pid fd : ℕ) → event.now ≡ event_of.Kqueue pid fd → ⊥ }
{
    matches!(event, Event::Kqueue { .. })
}

/// A dealing to so many shares, 1 to 16, that deals kqueues of these births evenly. Any would do: only speed rests on
/// it.
pub fn dealing_for(births: &[u64], shares: u32) -> Dealing
    requires { (1 ≤ shares) × (shares ≤ MOST_SHARES) }
    ensures { result.shares ≡ shares }
{
    let mut best = Dealing { shares, seed: 0 };
    let mut least = most_dealt(best, births);
    for seed in 1..SEEDS {
        let dealing = Dealing { shares, seed };
        let most = most_dealt(dealing, births);
        if most < least {
            best = dealing;
            least = most;
        }
    }
    best
}

/// How many kqueues of these births a share has at most.
fn most_dealt(dealing: Dealing, births: &[u64]) -> u32
    requires { (1 ≤ dealing.shares) × (dealing.shares ≤ MOST_SHARES) }
{
    let mut dealt = [0_u32; MOST_SHARES as usize];
    for place in births.iter().take(TELLING_BIRTHS) {
        let share = dealing.share_for(*place) as usize;
        if let Some(count) = dealt.get_mut(share) {
            *count = count.saturating_add(1);
        }
    }
    let mut most = 0;
    for count in &dealt {
        most = most.max(*count);
    }
    most
}
