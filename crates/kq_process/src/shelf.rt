//! Things under numbers, at most one under each, in rising order of the numbers.

ghost use Rattle.std.specs.Prelude.{◌≡◌, ◌==◌, not, filter, [], None, Some, IfOk, OnOk, OnErr};
ghost use Rattle.std.specs.Prelude.{MatchResult, length};
ghost use Rattle.std.specs.Option.{option_copied, option_copied_mut};
ghost use Rattle.kq_process.specs.Shelf.{lookup, put, without, AreRising, IsPlace, IsGap};

use crate::guesses::Guesses;
use crate::search::find;
use kq_model::Memory;
use std::alloc::Global;
use std::marker::Model;

/// What stands under numbers, at most one thing under each, in rising order of the numbers.
/// Contracts see it as the list of its pairs.
#[derive(Drop)]
pub struct Shelf<T> {
    entries: Vec<(u32, T)>,
    guesses: Guesses,
}

impl<T> Model for Shelf<T> {
    ghost use Rattle.std.specs.Prelude.{ℕ, List};
    ghost use Rattle.kq_process.specs.Shelf.{AreRising};

    ghost Value = { List (ℕ × T) };

    ghost view = { λ s. s.entries.items };

    ghost invariant = { λ s. AreRising s.entries.items };
}

impl<T> Shelf<T> {
    ghost use Rattle.std.specs.Borrow.{sem};
    ghost use Rattle.kq_process.specs.Lends.{lends_entry, lends_thing};

    /// Nothing under any number.
    pub fn new(alloc: Global) -> Self
        ensures { result ≡ [] }
    {
        Shelf {
            entries: Vec::new(alloc),
            guesses: Guesses::new(alloc),
        }
    }

    /// What stands under a number.
    #[inline(always)]
    pub fn get(&self, number: u32) -> Option<&T>
        ensures found { option_copied result ≡ lookup number self.now }
        ensures rising { AreRising self.now }
    {
        match self.find(number) {
            Ok(index) => Some(&self.entries[index].1),
            Err(_) => None,
        }
    }

    /// What stands under a number, for writing.
    pub fn get_mut(&mut self, number: u32) -> Option<&mut T>
        ensures* writes_back { sem 𝓛 (lends_entry T.row self.entry number result) }
        ensures found { option_copied_mut result ≡ lookup number self.old }
        ensures rising { AreRising self.old }
    {
        match self.find(number) {
            Ok(index) => Some(self.thing_mut(index, number)),
            Err(_) => None,
        }
    }

    fn thing_mut(&mut self, index: usize, number: u32) -> &mut T
        requires { IsPlace number self.old index }
        ensures* writes_back { sem 𝓛 (lends_thing T.row self.entry number result) }
        ensures found { lookup number self.old ≡ Some result.now }
    {
        let entry = &mut self.entries[index];
        &mut entry.1
    }

    // The index of the number's pair, or where it would stand.
    #[inline(always)]
    fn find(&self, number: u32) -> Result<usize, usize>
        ensures place { MatchResult result (IsPlace number self.now) (IsGap number self.now) }
        ensures rising { AreRising self.now }
    {
        find(&self.entries, number, &self.guesses)
    }
}

impl<T: Drop> Shelf<T> {
    /// Puts a thing under a number, in place of what stood there.
    pub fn insert(&mut self, number: u32, thing: T) -> Result<(), Memory>
        ensures ok { OnOk result (self.new ≡ put number thing self.old) }
        // Memory comes only where a growth was refused.
        ensures err { OnErr result ((self.new ≡ self.old) × (lookup number self.old ≡ None)) }
        ensures rising { AreRising self.old }
    {
        match self.find(number) {
            Ok(index) => {
                self.entries[index] = (number, thing);
                Ok(())
            }
            Err(index) => {
                self.guesses.make_room(&self.entries, number)?;
                self.entries
                    .insert(index, (number, thing))
                    .map_err(|_| Memory)?;
                self.guesses.note(&self.entries, index);
                Ok(())
            }
        }
    }
}
