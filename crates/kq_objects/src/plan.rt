//! What a possible record does: what is noted of objects, and the hints, each in order.

ghost use Rattle.std.specs.Prelude.{◌≡◌, [], ◌∷◌, Some, IfOk, OnOk};
ghost use Rattle.kq_model.specs.ObjectPlan.{hints_for};
ghost use Rattle.kq_objects.specs.Plans.{in_turn};

use kq_model::{Doing, Hint, Memory, Target};
use std::alloc::Global;
use std::marker::Model;

/// What a possible record does to the objects. Contracts see what is noted of them, in order, and
/// the hints, in order.
#[derive(Debug, Drop)]
pub struct Plan {
    /// What is noted first: most records note one thing alone.
    pub(crate) first: Option<Doing>,
    pub(crate) rest: Vec<Doing>,
    /// Whom it tells first: most records tell one target alone.
    pub(crate) told: Option<(Target, Hint)>,
    pub(crate) hints: Vec<(Target, Hint)>,
}

impl Model for Plan {
    ghost use Rattle.kq_model.specs.ObjectPlan.{ObjectPlan};
    ghost use Rattle.kq_objects.specs.Plans.{in_turn};

    ghost Value = { ObjectPlan };

    ghost view = { λ p. record { doings = in_turn p.first p.rest.items; hints = in_turn p.told p.hints.items } };
}

impl Plan {
    /// Puts what the knotes of the targets are told into an empty list, in order. They see the objects
    /// after `commit`.
    pub fn put_hints(&self, hints: &mut Vec<(Target, Hint)>) -> Result<(), Memory>
        requires { hints.old.items ≡ [] }
        ensures { OnOk result (hints.new.items ≡ self.now.hints) }
    {
        if let Some(told) = self.told {
            hints.push(told)?;
        }
        hints.extend_from_slice(&self.hints)?;
        Ok(())
    }

    /// These things are noted, if there is a first one it before the rest, and there is a first hint
    /// before the others.
    pub(crate) fn of(
        first: Option<Doing>,
        rest: Vec<Doing>,
        told: (Target, Hint),
        hints: Vec<(Target, Hint)>,
    ) -> Self
        ensures { result ≡ record { doings = in_turn first rest.items; hints = told ∷ hints.items } }
    {
        Plan {
            first,
            rest,
            told: Some(told),
            hints,
        }
    }

    /// One thing is noted, and the target gets at most one hint. Takes no memory.
    #[tactic(auto, unfolding(kq_model::specs::ObjectPlan::hints_for))]
    pub(crate) fn of_one(alloc: Global, doing: Doing, target: Target, hint: Option<Hint>) -> Self
        ensures { result ≡ record { doings = doing ∷ []; hints = hints_for target hint } }
    {
        let told = match hint {
            Some(hint) => Some((target, hint)),
            None => None,
        };
        Plan {
            first: Some(doing),
            rest: Vec::new(alloc),
            told,
            hints: Vec::new(alloc),
        }
    }

    /// Two things are noted, and there is one hint.
    pub(crate) fn of_two(
        alloc: Global,
        first: Doing,
        second: Doing,
        hint: (Target, Hint),
    ) -> Result<Self, Memory>
        ensures { IfOk result (λ p. p ≡ record { doings = first ∷ second ∷ []; hints = hint ∷ [] }) }
    {
        let rest = vec![in alloc; second]?;
        Ok(Plan {
            first: Some(first),
            rest,
            told: Some(hint),
            hints: Vec::new(alloc),
        })
    }

    /// This plan, with two more things noted before all else.
    pub(crate) fn preceded_by(
        self,
        alloc: Global,
        first: Doing,
        second: Doing,
    ) -> Result<Self, Memory>
        ensures { IfOk result (λ p. p ≡ record { doings = first ∷ second ∷ self.doings; hints = self.hints }) }
    {
        let Plan {
            first: third,
            rest: later,
            told,
            hints,
        } = self;
        let mut rest = vec![in alloc; second]?;
        if let Some(third) = third {
            rest.push(third)?;
        }
        rest.extend_from_slice(&later)?;
        Ok(Plan {
            first: Some(first),
            rest,
            told,
            hints,
        })
    }
}
