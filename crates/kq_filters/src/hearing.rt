//! What a knote makes of a hint: whether its filter takes it, what is kept, when it goes.

ghost use Rattle.std.specs.Prelude.{◌≡◌, if◌then◌else◌};
ghost use Rattle.kq_model.specs.Hearing.{listed};
ghost use Rattle.kq_model.specs.Hints.{takes, kept, is_exit, added};
ghost use Rattle.kq_model.specs.Alerting.{after_hint, is_done};
ghost use Rattle.kq_model.specs.Knote as model;
ghost use Rattle.kq_model.specs.Recast.{tallied_knote};

use kq_knote::Knote;
use kq_model::notes::NOTE_EXIT;
use kq_model::{Filter, Hint};

/// What became of a knote that heard a hint.
#[derive(Debug, Drop, Clone, Copy, PartialEq, Eq)]
pub enum Heard {
    /// It stays.
    Kept,
    /// It heard of the exit of its process and has nothing to tell: it is to go.
    Drop,
}

/// Whether a filter takes a hint for its target.
#[tactic(auto, unfolding(kq_model::specs::Hints::takes))]
pub fn takes(filter: Filter, hint: Hint) -> bool
    ensures { result ≡ takes filter hint }
{
    match (filter, hint) {
        (Filter::Read, Hint::Readable) => true,
        (Filter::Write, Hint::Writable) => true,
        (Filter::Vnode | Filter::Proc, Hint::Note(_)) => true,
        (Filter::Signal, Hint::Delivered) => true,
        _ => false,
    }
}

/// What is kept of a hint: of a note only the wanted bits, and nothing where that is none.
#[tactic(auto, unfolding(kq_model::specs::Hints::kept))]
fn kept(wanted: u32, hint: Hint) -> Option<Hint>
    ensures { result ≡ kept wanted hint }
{
    match hint {
        Hint::Note(bits) if bits & wanted == 0 => None,
        Hint::Note(bits) => Some(Hint::Note(bits & wanted)),
        Hint::Child(_) => None,
        other => Some(other),
    }
}

/// Whether a hint tells a filter that its process has exited.
#[tactic(auto, unfolding(kq_model::specs::Hints::is_exit))]
fn is_exit(filter: Filter, hint: Hint) -> bool
    ensures { result ≡ is_exit filter hint }
{
    match (filter, hint) {
        (Filter::Proc, Hint::Note(bits)) => bits & NOTE_EXIT == NOTE_EXIT,
        _ => false,
    }
}

/// Adds what is kept of a hint to what the knote heard.
#[tactic(auto, unfolding(kq_model::specs::Hints::added))]
fn add(knote: &mut Knote, kept: Option<Hint>)
    ensures { knote.new ≡ added kept knote.old }
{
    if let Some(hint) = kept {
        knote.tally.add(hint);
    }
}

/// Adds a hint that the knote's filter takes.
fn take(knote: &mut Knote, hint: Hint)
    ensures { knote.new ≡ (if takes knote.old.key.filter hint
        then added (kept knote.old.fflags hint) knote.old else knote.old) }
{
    if takes(knote.key.filter, hint) {
        add(knote, kept(knote.fflags, hint));
    }
}

/// Tells a knote a hint for its target, and says whether it is to go.
#[tactic(auto, unfolding(kq_model::specs::Alerting::after_hint, kq_model::specs::Alerting::is_done))]
fn tell(knote: &mut Knote, hint: Hint) -> bool
    ensures knote { knote.new ≡ after_hint hint knote.old }
    ensures done { result ≡ is_done hint knote.old }
{
    let exits = is_exit(knote.key.filter, hint);
    let oneshot = knote.oneshot || exits;
    take(knote, hint);
    knote.oneshot = oneshot;
    exits && knote.has_nothing()
}

/// What became of a knote, by whether it is to go.
fn after(done: bool) -> Heard
    ensures { result ≡ (if done then Heard.Drop else Heard.Kept) }
{
    if done { Heard::Drop } else { Heard::Kept }
}

/// Tells a knote a hint for its target. A hint that its filter does not take changes nothing, and
/// of a note only the bits of its fflags are kept. A PROC knote that hears of the exit of its
/// process becomes ONESHOT, and is to go where it has nothing to tell.
pub fn hear(knote: &mut Knote, hint: Hint) -> Heard
    ensures knote { knote.new ≡ after_hint hint knote.old }
    ensures heard { result ≡ (if is_done hint knote.old then Heard.Drop else Heard.Kept) }

    // The same of a knote that keeps all that it heard.
    ensures model { (m : model.Knote listed) → knote.old ≡ tallied_knote m
        → (knote.new ≡ tallied_knote (after_hint hint m))
        × (result ≡ (if is_done hint m then Heard.Drop else Heard.Kept)) }
{
    after(tell(knote, hint))
}
