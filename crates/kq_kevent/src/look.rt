//! What a knote sees in a world, and the event that is delivered of it.

ghost use Rattle.std.specs.Prelude.{◌≡◌};
ghost use Rattle.kq_filters.specs.Alone.{reads_target};
ghost use Rattle.kq_model.specs.Bits.{flag_if};
ghost use Rattle.kq_model.specs.Look.{look};
ghost use Rattle.kq_model.specs.ChangedKnote.{attended};
ghost use Rattle.kq_model.specs.Retrieval.{event_flags, event_of};

use bitflags::Flags;
use kq_filters::{Seen, look, look_alone};
use kq_knote::Knote;
use kq_model::{EvFlags, Filter, Kevent, Views};

/// The look of a filter at its target.
fn look_at_target<V: Views>(views: &V, knote: &Knote) -> Option<Seen>
    ensures { result ≡ look (V.sees views.now) knote.now }
{
    let view = knote.target.and_then(|target| views.view(target));
    look(knote, view)
}

/// Whether a filter reads what there is to see of its target.
#[tactic(auto, unfolding(kq_filters::specs::Alone::reads_target))]
fn reads_target(filter: Filter) -> bool
    ensures { result ≡ reads_target filter }
{
    matches!(filter, Filter::Read | Filter::Write | Filter::Proc)
}

/// What the filter of a knote sees in a world, by its target as it is now; none where the condition does not
/// hold. A knote with a notice of a parent sees that alone. Only READ, WRITE and PROC ask the world.
pub fn look_in<V: Views>(views: &V, knote: &Knote) -> Option<Seen>
    ensures { result ≡ look (V.sees views.now) knote.now }
{
    if reads_target(knote.key.filter) {
        look_at_target(views, knote)
    } else {
        look_alone(knote)
    }
}

/// Looks at an enabled knote, which becomes active where its condition holds.
#[tactic(auto, unfolding(kq_model::specs::ChangedKnote::attended, kq_model::specs::ChangedKnote::activated))]
pub fn attend<V: Views>(views: &V, knote: &mut Knote)
    ensures { knote.new ≡ attended (V.sees views.now) knote.old }
{
    if knote.enabled && look_in(views, knote).is_some() {
        knote.active = true;
    }
}

/// The flags of an event: the knote's actions, then EOF.
#[tactic(auto, unfolding(kq_model::specs::Retrieval::event_flags))]
fn event_flags(knote: &Knote, seen: Seen) -> EvFlags
    ensures { result ≡ event_flags knote.now seen }
{
    let flags = flag_if(
        knote.oneshot,
        EvFlags::ONESHOT,
        EvFlags::from_bits_retain(0),
    );
    let flags = flag_if(knote.clear, EvFlags::CLEAR, flags);
    let flags = flag_if(knote.dispatch, EvFlags::DISPATCH, flags);
    flag_if(seen.eof, EvFlags::EOF, flags)
}

/// One more flag, where it holds.
fn flag_if(holds: bool, flag: EvFlags, flags: EvFlags) -> EvFlags
    ensures { result ≡ flag_if holds flag.0 flags }
{
    if holds { flags.union(flag) } else { flags }
}

/// The event that a knote delivers where this is seen: ident, filter and udata are the knote's, fflags and data
/// are as seen. The flags are the knote's actions, of ONESHOT, CLEAR and DISPATCH, and EOF where it is seen.
#[tactic(auto, unfolding(kq_model::specs::Retrieval::event_of))]
pub fn event_of(knote: &Knote, seen: Seen) -> Kevent
    ensures { result ≡ event_of knote.now seen }
{
    Kevent {
        ident: knote.key.ident,
        filter: knote.key.filter,
        flags: event_flags(knote, seen),
        fflags: seen.fflags,
        datum: seen.datum,
        udata: knote.udata,
    }
}
