//! What lies in the lock's slot.
ghost use Rattle.std.specs.Prelude.{◌≡◌, [], ◌∷◌, ◌++◌, IfOk, OnErr};

use crate::entry::Entry;
use crate::machine::Machine;
use kq_model::Memory;

/// The locked value with its history.
#[derive(Drop)]
pub struct Kept<M, S, A> {
    pub value: M,
    pub history: Vec<Entry<S, A>>,
}

/// The value takes the step, and the history its entry. After `Memory` both are the old ones.
pub fn take_step<M: Machine>(
    kept: &mut Kept<M, M::Step, M::Answer>,
    step: M::Step,
) -> Result<M::Answer, Memory>
    ensures entry { IfOk result (λ a.
        kept.new.history.items ≡ kept.old.history.items ++ record { step = step; answer = a } ∷ []) }
    ensures leads { IfOk result (λ a. M.leads kept.old.value step a kept.new.value) }
    ensures err { OnErr result (kept.new.value ≡ kept.old.value) }
    ensures history { OnErr result (kept.new.history.items ≡ kept.old.history.items) }
{
    kept.history.reserve(1)?;
    let (answer, copy) = kept.value.apply(&step)?;
    kept.history.push_reserved(Entry { step, answer: copy });
    Ok(answer)
}
