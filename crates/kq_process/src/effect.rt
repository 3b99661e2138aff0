//! What a record did: its verdict, the descriptors that it closed, and its hints.

ghost use Rattle.std.specs.Prelude.{◌≡◌, ◌∷◌, [], IfOk, OnOk, IsOk};

use kq_model::{Hint, Memory, Series, Target, Why};
use kq_objects::Plan;
use std::alloc::Global;
use std::mem;

/// What a record did to the world, and whom it tells. One can serve for a record after the other: its lists keep
/// their room.
#[derive(Drop)]
pub struct Effect {
    /// Done, or the first reason why the record is impossible: then it changed nothing.
    pub verdict: Result<(), Why>,
    /// The descriptors that were closed, by pid and number, in order.
    pub closed: Series<(u32, u32)>,
    /// For the knotes of what the record touched, in order.
    pub hints: Series<(Target, Hint)>,
}

impl Effect {
    ghost use Rattle.kq_process.specs.Effects.{IsRefused, Tells};

    /// Of a record that closes nothing and tells nobody.
    pub fn new(alloc: Global) -> Self
        ensures { Tells [] result }
    {
        Effect {
            verdict: Ok(()),
            closed: Series::from_vec(Vec::new(alloc)),
            hints: Series::from_vec(Vec::new(alloc)),
        }
    }

    /// Of an impossible record.
    pub(crate) fn impossible(&mut self, alloc: Global, why: Why)
        ensures { IsRefused why self.new }
    {
        let none = self.take_closed(alloc);
        let nobody = self.take_hints(alloc);
        self.verdict = Err(why);
        self.closed = Series::from_vec(none);
        self.hints = Series::from_vec(nobody);
    }

    /// Of a record that closes nothing and tells nobody.
    pub(crate) fn quiet(&mut self, alloc: Global)
        ensures { Tells [] self.new }
    {
        let hints = self.take_hints(alloc);
        self.telling(alloc, hints);
    }

    /// Of a record that closes nothing and gives one hint.
    pub(crate) fn told(&mut self, alloc: Global, target: Target, hint: Hint) -> Result<(), Memory>
        ensures { OnOk result (Tells ((target, hint) ∷ []) self.new) }
    {
        let mut hints = self.take_hints(alloc);
        hints.push((target, hint))?;
        self.telling(alloc, hints);
        Ok(())
    }

    /// Of a possible record that closes these descriptors and gives these hints.
    pub(crate) fn done(&mut self, closed: Vec<(u32, u32)>, hints: Vec<(Target, Hint)>)
        ensures verdict { IsOk self.new.verdict }
        ensures closed { self.new.closed ≡ closed.items }
        ensures hints { self.new.hints ≡ hints.items }
    {
        self.verdict = Ok(());
        self.closed = Series::from_vec(closed);
        self.hints = Series::from_vec(hints);
    }

    /// Of a record that closes nothing and gives these hints.
    pub(crate) fn telling(&mut self, alloc: Global, hints: Vec<(Target, Hint)>)
        ensures { Tells hints.items self.new }
    {
        if !self.closed.is_empty() {
            let none = self.take_closed(alloc);
            self.closed = Series::from_vec(none);
        }
        self.verdict = Ok(());
        self.hints = Series::from_vec(hints);
    }

    /// The list of closes, emptied.
    pub(crate) fn take_closed(&mut self, alloc: Global) -> Vec<(u32, u32)>
        ensures { result.items ≡ [] }
    {
        let none = Series::from_vec(Vec::new(alloc));
        let mut closed = mem::replace(&mut self.closed, none).into_vec();
        closed.clear();
        closed
    }

    /// The list of hints, emptied.
    pub(crate) fn take_hints(&mut self, alloc: Global) -> Vec<(Target, Hint)>
        ensures { result.items ≡ [] }
    {
        let none = Series::from_vec(Vec::new(alloc));
        let mut hints = mem::replace(&mut self.hints, none).into_vec();
        hints.clear();
        hints
    }

    /// The hints of a plan, in the room of the list that stood here.
    pub(crate) fn take_hints_of(
        &mut self,
        alloc: Global,
        plan: &Plan,
    ) -> Result<Vec<(Target, Hint)>, Memory>
        ensures { IfOk result (λ hints. hints.items ≡ plan.now.hints) }
    {
        let mut hints = self.take_hints(alloc);
        plan.put_hints(&mut hints)?;
        Ok(hints)
    }
}
