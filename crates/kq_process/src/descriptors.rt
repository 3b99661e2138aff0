//! What the open descriptors of a process name; a number that is closed leaves an empty slot.

ghost use Rattle.std.specs.Prelude.{◌≡◌, ℕ, Option, not, filter, [], IfOk, OnOk, OnErr, None};
ghost use Rattle.kq_model.specs.declared.object.Named.{Named as Name};
ghost use Rattle.kq_model.specs.ProcessPlans.{is_kqueue};
ghost use Rattle.kq_process.specs.Shelf.{lookup, put, without, AreRising};
ghost use Rattle.kq_process.specs.Slots.{filled, is_inherited};

use crate::guesses::Guesses;
use crate::search::find;
use kq_model::{Memory, Named};
use std::alloc::Global;
use std::marker::Model;

/// What the open descriptors of a process name, by their numbers. Contracts see the list of the
/// pairs, in rising order of the numbers.
///
/// A number that is closed leaves its slot empty, so that a close moves no other one. The empty
/// slots are dropped once there are more of them than full ones.
#[derive(Drop)]
pub struct Descriptors {
    slots: Vec<(u32, Option<Named>)>,
    /// How many slots are empty.
    empty: usize,
    guesses: Guesses,
}

impl Model for Descriptors {
    ghost use Rattle.std.specs.Prelude.{ℕ, List};
    ghost use Rattle.kq_model.specs.declared.object.Named.{Named as Name};
    ghost use Rattle.kq_process.specs.Shelf.{AreRising};
    ghost use Rattle.kq_process.specs.Slots.{filled};

    ghost Value = { List (ℕ × Name) };

    ghost view = { λ d. filled d.slots.items };

    ghost invariant = { λ d. AreRising d.slots.items };
}

impl Descriptors {
    /// No number is open.
    pub fn new(alloc: Global) -> Self
        ensures { result ≡ [] }
    {
        Descriptors {
            slots: Vec::new(alloc),
            empty: 0,
            guesses: Guesses::new(alloc),
        }
    }

    /// What a number names.
    #[inline(always)]
    pub fn get(&self, number: u32) -> Option<Named>
        ensures found { result ≡ lookup number self.now }
        ensures rising { AreRising self.now }
    {
        match find(&self.slots, number, &self.guesses) {
            Ok(index) => self.slots[index].1,
            Err(_) => None,
        }
    }

    /// All slots, in rising order of their numbers.
    pub fn slots(&self) -> &[(u32, Option<Named>)]
        ensures { filled result.now ≡ self.now }
    {
        &self.slots
    }

    /// The number names this from now on, in place of what it named.
    pub fn insert(&mut self, number: u32, named: Named) -> Result<(), Memory>
        ensures ok { OnOk result (self.new ≡ put number named self.old) }
        // Memory comes only where a growth was refused.
        ensures err { OnErr result ((self.new ≡ self.old) × (lookup number self.old ≡ None)) }
        ensures rising { AreRising self.old }
    {
        match find(&self.slots, number, &self.guesses) {
            Ok(index) => {
                let was_empty = self.slots[index].1.is_none();
                self.empty = self.empty.saturating_sub(was_empty as usize);
                self.slots[index] = (number, Some(named));
                Ok(())
            }
            Err(index) => {
                self.guesses.make_room(&self.slots, number)?;
                self.slots
                    .insert(index, (number, Some(named)))
                    .map_err(|_| Memory)?;
                self.guesses.note(&self.slots, index);
                Ok(())
            }
        }
    }

    /// Closes a number.
    pub fn remove(&mut self, number: u32) -> Option<Named>
        ensures removed { result ≡ lookup number self.old }
        ensures rest { self.new ≡ without number self.old }
    {
        match find(&self.slots, number, &self.guesses) {
            Ok(index) => {
                let named = self.slots[index].1;
                self.slots[index] = (number, None);
                self.count_empty(named);
                named
            }
            Err(_) => None,
        }
    }

    // One slot more is empty, if something was in it.
    #[inline(never)]
    fn count_empty(&mut self, was: Option<Named>)
        ensures { self.new ≡ self.old }
    {
        self.empty = self.empty.saturating_add(was.is_some() as usize);
        if self.slots.len() / 2 < self.empty {
            self.slots.retain(|slot| slot.1.is_some());
            self.empty = 0;
            self.guesses.note_fewer(&self.slots);
        }
    }

    /// Copies of the descriptors that a child of fork(2) has too: all but those of kqueues.
    pub fn inheritable(&self, alloc: Global) -> Result<Self, Memory>
        ensures copies { IfOk result (λ copies. copies ≡ filter (λ entry. not (is_kqueue entry.1)) self.now) }
        ensures rising { AreRising self.now }
    {
        Ok(Descriptors {
            slots: inherited(alloc, &self.slots)?,
            empty: 0,
            guesses: Guesses::new(alloc),
        })
    }
}

/// Copies of the slots of what a child of fork(2) has too.
fn inherited(
    alloc: Global,
    slots: &[(u32, Option<Named>)],
) -> Result<Vec<(u32, Option<Named>)>, Memory>
    ensures { IfOk result (λ copies. copies.items
        ≡ filter (λ (slot : ℕ × Option Name). is_inherited slot.1) slots.now) }
{
    let mut copies = Vec::with_capacity(alloc, slots.len())?;
    for slot in slots {
        if is_inherited(slot.1) {
            copies.push(*slot)?;
        }
    }
    Ok(copies)
}

#[tactic(auto, unfolding(kq_model::specs::ProcessPlans::is_kqueue))]
fn is_inherited(named: Option<Named>) -> bool
    ensures { result ≡ is_inherited named }
{
    match named {
        None | Some(Named::Kqueue(_)) => false,
        Some(_) => true,
    }
}
