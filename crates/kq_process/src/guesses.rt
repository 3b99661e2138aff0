//! Where the pair of a number may stand, without a search.

use crate::far_guesses::FarGuesses;
use kq_model::Memory;
use std::alloc::Global;

/// Numbers below this are small, however few pairs there are.
const FEWEST: usize = 64;

/// How far above that numbers are small, for each pair.
const FOR_EACH: usize = 4;

/// At which index the pair of a number stands, among pairs in rising order of their numbers. Each is a guess: who
/// takes one looks at what stands there, so that no contract speaks of them. None is noted while the pairs tell it by
/// their ends, as where no number is missing, or just behind the first.
#[derive(Drop)]
pub struct Guesses {
    /// Those of small numbers, by number.
    indexes: Vec<u32>,
    /// Those of the others.
    far: FarGuesses,
    /// Whether the pairs tell it by their ends.
    plain: bool,
}

impl Guesses {
    /// None is noted.
    pub fn new(alloc: Global) -> Self {
        Guesses {
            indexes: Vec::new(alloc),
            far: FarGuesses::new(alloc),
            plain: true,
        }
    }

    /// Where the number may stand among these.
    #[inline(always)]
    pub fn of<T>(&self, entries: &[(u32, T)], number: u32) -> usize {
        if self.plain {
            return by_ends(entries, number);
        }
        if let Some(index) = self.indexes.get(number as usize) {
            return *index as usize;
        }
        if let Some(index) = self.far.of(number) {
            return index;
        }
        by_ends(entries, number)
    }

    /// Room for the guess of a number that comes among these, unless they tell it by their ends.
    #[inline(never)]
    pub fn make_room<T>(&mut self, entries: &[(u32, T)], number: u32) -> Result<(), Memory> {
        let number_at = number as usize;
        if number_at < self.indexes.len() || self.plain && is_plain(entries, number) {
            return Ok(());
        }
        self.plain = false;
        let most = entries
            .len()
            .saturating_mul(FOR_EACH)
            .saturating_add(FEWEST);
        if number_at < most {
            self.indexes
                .resize(number_at.saturating_mul(2).max(FEWEST), 0)?;
            self.note(entries, 0);
        } else if self.far.make_room(entries.len().saturating_add(1))? {
            self.note(entries, 0);
        }
        Ok(())
    }

    /// Notes where these stand, from an index on.
    #[inline(never)]
    pub fn note<T>(&mut self, entries: &[(u32, T)], from: usize) {
        if self.plain {
            return;
        }
        for index in from..entries.len() {
            let number = entries[index].0;
            let Ok(place) = u32::try_from(index) else {
                return;
            };
            match self.indexes.get_mut(number as usize) {
                Some(guess) => *guess = place,
                None => self.far.note(number, place),
            }
        }
    }

    /// Notes where these stand, which are fewer than before.
    pub fn note_fewer<T>(&mut self, entries: &[(u32, T)]) {
        self.plain = false;
        self.far.forget(entries.len());
        self.note(entries, 0);
    }
}

/// Where the number stands if none is missing between it and the last of these, or else between it and the first.
fn by_ends<T>(entries: &[(u32, T)], number: u32) -> usize {
    match (entries.first(), entries.last()) {
        (Some(first), Some(last)) => {
            let before_last = last.0.saturating_sub(number) as usize;
            if before_last < entries.len() {
                return entries.len() - 1 - before_last;
            }
            number.saturating_sub(first.0) as usize
        }
        _ => 0,
    }
}

/// Whether these, which tell by their ends where their numbers stand, tell it also with this number among them.
fn is_plain<T>(entries: &[(u32, T)], number: u32) -> bool {
    match (entries.first(), entries.last()) {
        (Some(first), Some(last)) => {
            let span = last.0.max(number).saturating_sub(first.0.min(number));
            let follows = number.saturating_sub(1) == last.0;
            entries.len() < 2 || follows || span as usize == entries.len()
        }
        _ => true,
    }
}
