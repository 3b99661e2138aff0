//! What a change is to do, before it is done: refuse, delete, make or modify.

ghost use Rattle.std.specs.Prelude.{◌≡◌};
ghost use Rattle.std.specs.Option.{option_map};
ghost use Rattle.kq_model.specs.ChangedKnote.{key_of};
ghost use Rattle.kq_model.specs.Knote.{find_knote};
ghost use Rattle.kq_model.specs.Registration.{decided, decision};
ghost use Rattle.kq_kevent.specs.Decided.{decision_of, IsAbout};
ghost use Rattle.kq_kevent.specs.Owned.{caller};

use crate::Kq;
use crate::refusals::{is_malformed, is_unopened, own_refusal};
use crate::register::asks;
use kq_knote::Knote;
use kq_model::{Change, Errno, EvFlags, Version, Views};
use kq_table::Placed;

/// What a change is to do.
#[derive(Debug, Drop, Clone, Copy)]
pub enum Decision {
    /// It is refused with this error.
    Refuse(Errno),
    /// It takes out this knote, which is that of its key.
    Remove(Placed<Knote>),
    /// It makes the knote of its key.
    Make,
    /// It modifies this knote.
    Modify(Placed<Knote>),
}

/// Without a knote only ADD does something; with one DELETE removes it. ADD is refused where the
/// filter refuses it.
#[tactic(auto, unfolding(kq_model::specs::Registration::decided, kq_model::specs::Registration::unless_refused))]
fn decided<V: Views>(
    owner: u32,
    version: Version,
    present: Option<Placed<Knote>>,
    change: &Change,
    views: &V,
) -> Decision
    ensures decided { decision_of result
        ≡ decided (record { views = V.sees views.now; owner = owner; version = version })
        (option_map (λ p. p.row) present) change.now }
    ensures about { IsAbout result (option_map (λ p. p.row) present) }
{
    match present {
        None => {
            if !asks(change.flags, EvFlags::ADD) {
                return Decision::Refuse(Errno::ENOENT);
            }
            match own_refusal(owner, version, true, change, views) {
                Some(error) => Decision::Refuse(error),
                None => Decision::Make,
            }
        }
        Some(found) => {
            if asks(change.flags, EvFlags::DELETE) {
                return Decision::Remove(found);
            }
            if !asks(change.flags, EvFlags::ADD) {
                return Decision::Modify(found);
            }
            match own_refusal(owner, version, false, change, views) {
                Some(refused) => Decision::Refuse(refused),
                None => Decision::Modify(found),
            }
        }
    }
}

impl Kq {
    /// What a change is to do. The refusals stand in their order: a filter that is not simulated,
    /// ENABLE with DISABLE, a number that is not open, nothing there and no ADD, and at ADD what
    /// the filter itself refuses.
    #[tactic(auto, unfolding(kq_model::specs::Registration::decision))]
    pub(crate) fn decide<V: Views>(&self, change: &Change, views: &V) -> Decision
        ensures decision { decision_of result ≡ decision (caller (V.sees views.now) self.now)
            (find_knote (key_of change.now) self.now.kq.knotes) change.now }
        ensures about { IsAbout result (find_knote (key_of change.now) self.now.kq.knotes) }
    {
        if is_malformed(change) {
            return Decision::Refuse(Errno::EINVAL);
        }
        if is_unopened(self.owner, change, views) {
            return Decision::Refuse(Errno::EBADF);
        }
        decided(
            self.owner,
            self.version,
            self.knotes.locate(change.key()),
            change,
            views,
        )
    }
}
