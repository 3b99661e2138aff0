//! The knotes of the one target that all hints are for, from each to the next, without a list.

ghost use Rattle.std.specs.Prelude.{◌≡◌, ◌∷◌, [], List, MatchOption, Some};
ghost use Rattle.std.specs.Option.{option_copied, option_map};
ghost use Rattle.kq_model.specs.declared.object.Target.{Target as Targets};
ghost use Rattle.kq_model.specs.Knote.{find_knote};
ghost use Rattle.kq_model.specs.Tallied as tallied;
ghost use Rattle.kq_model.specs.Targets.{Posted};
ghost use Rattle.kq_knote.specs.Index.{IsHinted, IsOnly, behind, first_hinted, hinted_keys, is_shared};

use crate::{Knote, Knotes};
use kq_model::{Hint, Key, Target};
use kq_table::{Place, Watcher};

/// Whether others may watch the same, so that records give hints for it.
#[tactic(auto, unfolding(crate::specs::Index::is_shared))]
pub(crate) fn is_shared(target: Option<Target>) -> bool
    ensures { result ≡ is_shared target }
{
    match target {
        None | Some(Target::Own) => false,
        Some(_) => true,
    }
}

/// The one target of all hints, where they have but one and records give hints for it.
#[inline(always)]
pub fn only_target(posted: &[(Target, Hint)]) -> Option<Target>
    ensures { MatchOption result (Unit {0}) (λ target. IsOnly target posted.now) }
{
    let Some((first, _)) = posted.first() else {
        return None;
    };
    if !is_shared(Some(*first)) {
        return None;
    }
    if posted.len() == 1 {
        return Some(*first);
    }
    for hint in posted {
        if hint.0 != *first {
            return None;
        }
    }
    Some(*first)
}

impl Knotes {
    /// The first knote, in order of registration, that watches a target which all hints are for, by its key and its
    /// place. It takes constant time.
    pub fn first_watcher(&self, target: Target) -> Option<Watcher<Key>>
        ensures { (posted : List Posted) → IsOnly target posted
            → option_map (λ w. w.key) result ≡ first_hinted posted self.now.knotes }
    {
        self.rows.first_watching(target)
    }

    /// The knote that alone watches a target which all hints are for, where it stands at the guessed place. None says
    /// nothing.
    #[inline(always)]
    pub fn lone_watcher(&self, target: Target) -> Option<&Knote>
        ensures found { (knote : tallied.Knote) → option_copied result ≡ Some knote
            → find_knote knote.key self.now.knotes ≡ Some knote }
        ensures alone { (knote : tallied.Knote) → option_copied result ≡ Some knote
            → (posted : List Posted) → IsOnly target posted
            → hinted_keys posted self.now.knotes ≡ knote.key ∷ [] }
    {
        self.rows.lone_watching(target)
    }

    /// The next such knote behind the one of a key, which stands at the guessed place or elsewhere. It takes constant
    /// time.
    #[inline(always)]
    pub fn next_watcher(&self, guess: Place, key: Key) -> Option<Watcher<Key>>
        ensures { (target : Targets) (posted : List Posted) → IsOnly target posted
            → IsHinted posted key self.now.knotes
            → option_map (λ w. w.key) result ≡ first_hinted posted (behind key self.now.knotes) }
    {
        self.rows.next_watching_at(guess, key)
    }
}
