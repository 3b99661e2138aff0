//! The look of each filter: a knote's own filter tells what it sees, after its notice.

ghost use Rattle.std.specs.Prelude.{◌≡◌, None, false, option_and_then};
ghost use Rattle.kq_filters.specs.Alone.{reads_target};
ghost use Rattle.kq_model.specs.Hearing.{listed};
ghost use Rattle.kq_model.specs.Knote as model;
ghost use Rattle.kq_model.specs.Look.{look, look_by, look_user, notice_or};
ghost use Rattle.kq_model.specs.Recast.{tallied_knote};
ghost use Rattle.kq_model.specs.Views as world;

use crate::Seen;
use crate::level::{look_read, look_write};
use crate::told::{count_seen, notes_seen, process_seen, status_of};
use kq_knote::Knote;
use kq_model::notes::NOTE_CHILD;
use kq_model::{Filter, View};

/// A filter's look at its target, whose view is given: what the event is to say, or none where the
/// filter's condition does not hold.
#[tactic(auto, unfolding(kq_model::specs::Look::look))]
#[inline(always)]
pub fn look(knote: &Knote, view: Option<View>) -> Option<Seen>
    ensures seen { (views : world.Views) → view ≡ option_and_then views.view knote.now.target
        → result ≡ look views knote.now }

    // The same of a knote that keeps all that it heard.
    ensures model { (views : world.Views) (m : model.Knote listed) → knote.now ≡ tallied_knote m
        → view ≡ option_and_then views.view m.target → result ≡ look views m }
{
    notice_or(knote.notice, look_by(knote, &view))
}

/// The look of a filter that tells what its knote heard, or whether it was triggered: whatever there is to see of
/// its target, it sees this. READ, WRITE and PROC look as at a target that is not there.
#[inline(always)]
pub fn look_alone(knote: &Knote) -> Option<Seen>
    ensures seen { result ≡ notice_or knote.now.notice (look_by knote.now.key.filter None knote.now) }
    ensures alone { reads_target knote.now.key.filter ≡ false → (views : world.Views)
        → result ≡ look views knote.now }
{
    notice_or(knote.notice, look_by(knote, &None))
}

/// A knote that has a notice sees this alone.
#[tactic(auto, unfolding(kq_model::specs::Look::notice_or))]
pub fn notice_or(notice: Option<u32>, seen: Option<Seen>) -> Option<Seen>
    ensures { result ≡ notice_or notice seen }
{
    match notice {
        None => seen,
        Some(parent) => Some(Seen {
            fflags: NOTE_CHILD,
            datum: i64::from(parent),
            eof: false,
        }),
    }
}

/// What a knote sees of its target, by its filter.
#[tactic(auto, unfolding(kq_model::specs::Look::look_by))]
#[inline(always)]
fn look_by(knote: &Knote, view: &Option<View>) -> Option<Seen>
    ensures { result ≡ look_by knote.now.key.filter view.now knote.now }
{
    match knote.key.filter {
        Filter::Read => look_read(knote, view),
        Filter::Write => look_write(knote, view),
        Filter::Vnode => notes_seen(knote.tally.notes),
        Filter::Proc => process_seen(knote.tally.notes, status_of(view)),
        Filter::Signal | Filter::Timer => count_seen(knote.tally.count),
        Filter::User => look_user(knote),
        _ => None,
    }
}

/// A user event sees that it was triggered, and needs no world.
#[tactic(auto, unfolding(kq_model::specs::Look::look_user))]
pub fn look_user(knote: &Knote) -> Option<Seen>
    ensures { result ≡ look_user knote.now }
{
    if !knote.triggered {
        return None;
    }
    Some(Seen {
        fflags: knote.bits,
        datum: knote.datum,
        eof: false,
    })
}
