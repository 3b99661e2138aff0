//! The event that a kevent would give where its turn comes, or why it gives none.

ghost use Rattle.std.specs.Prelude.{MatchResult};
ghost use Rattle.kq_model.specs.Kqueue.{IsSound};
ghost use Rattle.kq_judge.specs.Pending.{IsPending, IsAbsence};

use kq_kevent::{Kq, event_of, look_in};
use kq_model::{Kevent, Key, Views};

/// Why a kevent is not to be returned.
#[derive(Debug, Drop, Clone, Copy, PartialEq, Eq)]
pub enum Absence {
    /// Nothing is registered by its ident and filter.
    NotRegistered,
    /// It is registered, and DISABLE or DISPATCH has disabled it.
    Disabled,
    /// It is enabled, and nothing was told since it was last reset or found idle.
    NotActive {
        /// Its condition holds now all the same.
        holds: bool,
    },
    /// It stands in the queue, and its condition holds no more.
    Idle,
}

/// The event that a kevent gives as the kqueue and the world stand, where its turn comes; else why it gives none.
pub fn pending_event<V: Views>(kq: &Kq, key: Key, views: &V) -> Result<Kevent, Absence>
    ensures event { MatchResult result
        (λ event. IsPending (V.sees views.now) kq.now.kq.knotes key event)
        (λ absence. IsAbsence (V.sees views.now) kq.now.kq.knotes key absence) }
    // Of every kqueue.
    ensures sound { IsSound kq.now.kq }
{
    let Some(knote) = kq.knotes().get(key) else {
        return Err(Absence::NotRegistered);
    };
    if !knote.enabled {
        return Err(Absence::Disabled);
    }
    let seen = look_in(views, &knote);
    if !knote.active {
        return Err(Absence::NotActive {
            holds: seen.is_some(),
        });
    }
    match seen {
        Some(seen) => Ok(event_of(&knote, seen)),
        None => Err(Absence::Idle),
    }
}
