//! Where the pairs of large numbers may stand, by hashes of the numbers.

use kq_model::Memory;
use std::alloc::Global;

/// So many entries are looked at, from that of the number's hash on.
const LOOKS: usize = 8;

/// How many entries there are for each pair, when they are made.
const FOR_EACH: usize = 4;

/// There are at least so many for each pair.
const FEWEST_FOR_EACH: usize = 2;

/// Spreads numbers that stand at regular intervals, too: 2^32 divided by the golden ratio.
const SPREAD: u32 = 0x9e37_79b9;

#[derive(Clone, Copy, Drop)]
struct Guess {
    /// 0 where there is none: that is not large.
    number: u32,
    index: u32,
}

const NO_GUESS: Guess = Guess {
    number: 0,
    index: 0,
};

/// How many entries are made for so many numbers.
fn entries_for(numbers: usize) -> usize {
    numbers.saturating_mul(FOR_EACH).saturating_add(LOOKS)
}

/// At which index the pair of a large number stands. One that finds no room takes that of another, which is then
/// searched for.
#[derive(Drop)]
pub struct FarGuesses {
    guesses: Vec<Guess>,
}

impl FarGuesses {
    /// None is noted.
    pub fn new(alloc: Global) -> Self {
        FarGuesses {
            guesses: Vec::new(alloc),
        }
    }

    pub fn is_empty(&self) -> bool {
        self.guesses.is_empty()
    }

    /// Where the number may stand, if that is noted.
    #[inline(never)]
    pub fn of(&self, number: u32) -> Option<usize> {
        let first = self.first(number);
        for entry in first..first.saturating_add(LOOKS) {
            match self.guesses.get(entry) {
                Some(guess) if guess.number == number => return Some(guess.index as usize),
                Some(_) => {}
                None => return None,
            }
        }
        None
    }

    /// Room for the guesses of so many numbers. Whether all are to be noted again.
    pub fn make_room(&mut self, numbers: usize) -> Result<bool, Memory> {
        if numbers.saturating_mul(FEWEST_FOR_EACH) <= self.guesses.len() {
            return Ok(false);
        }
        self.forget(numbers);
        self.guesses.resize(entries_for(numbers), NO_GUESS)?;
        Ok(true)
    }

    /// From here on none is noted, and there are no more entries than so many numbers want.
    pub fn forget(&mut self, numbers: usize) {
        self.guesses.truncate(entries_for(numbers));
        for guess in self.guesses.iter_mut() {
            *guess = NO_GUESS;
        }
    }

    /// Notes where the number stands.
    pub fn note(&mut self, number: u32, index: u32) {
        let first = self.first(number);
        let mut at = first;
        for entry in first..first.saturating_add(LOOKS) {
            match self.guesses.get(entry) {
                Some(guess) if guess.number == number || guess.number == 0 => {
                    at = entry;
                    break;
                }
                _ => {}
            }
        }
        if let Some(guess) = self.guesses.get_mut(at) {
            *guess = Guess { number, index };
        }
    }

    // The first entry that may be the number's: so many stand behind it.
    fn first(&self, number: u32) -> usize {
        let entries = self.guesses.len().saturating_sub(LOOKS) as u64;
        let hash = u64::from(number.wrapping_mul(SPREAD));
        (hash.wrapping_mul(entries) >> 32) as usize
    }
}
