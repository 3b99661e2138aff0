//! Looking for a number among pairs in rising order of their numbers.

ghost use Rattle.std.specs.Prelude.{◌≡◌, ◌<◌, ◌≤◌, length, MatchResult};
ghost use Rattle.kq_process.specs.Shelf.{AreRising, IsPlace, IsGap};

use crate::guesses::Guesses;

/// How many guesses are made before what is left is halved.
const GUESSES: u32 = 4;

/// The index of the number's pair, or where it would stand. It costs one look where the guess is right, and else a
/// search.
#[inline(always)]
pub fn find<T>(entries: &[(u32, T)], number: u32, guesses: &Guesses) -> Result<usize, usize>
    requires { AreRising entries.now }
    ensures { MatchResult result (IsPlace number entries.now) (IsGap number entries.now) }
{
    let guess = guesses.of(entries, number);
    if guess < entries.len() {
        let there = entries[guess].0;
        if there == number {
            return Ok(guess);
        }
    }
    search(entries, number)
}

/// The index of the number's pair, or where it would stand. It costs one look where no number is missing, two or
/// three where they are missing at regular intervals, and else a few more than a search by halves.
#[inline(never)]
fn search<T>(entries: &[(u32, T)], number: u32) -> Result<usize, usize>
    requires { AreRising entries.now }
    ensures { MatchResult result (IsPlace number entries.now) (IsGap number entries.now) }
{
    let mut low = 0;
    let mut high = entries.len();
    let mut tries = 0u32;
    while low < high {
        let middle = guess(entries, number, low, high, tries);
        let there = entries[middle].0;
        if there == number {
            return Ok(middle);
        }
        if there < number {
            low = middle + 1;
        } else {
            high = middle;
        }
        tries = tries.saturating_add(1);
    }
    Err(low)
}

/// An index between these, at which the number may stand.
fn guess<T>(entries: &[(u32, T)], number: u32, low: usize, high: usize, tries: u32) -> usize
    requires some { low < high }
    requires within { high ≤ length entries.now }
    ensures not_below { low ≤ result }
    ensures not_above { result < high }
{
    let span = high - 1 - low;
    let first = entries[low].0;
    let last = entries[high - 1].0;
    low + ahead(number, first, last, span, tries).min(span)
}

/// How far behind the first of some numbers one may stand, if the last stands so far behind: where none is missing on
/// the nearer side, or as many in any part, by turns; then in the middle.
fn ahead(number: u32, first: u32, last: u32, span: usize, tries: u32) -> usize {
    if GUESSES <= tries {
        return span / 2;
    }
    let after_first = number.saturating_sub(first) as usize;
    let before_last = last.saturating_sub(number) as usize;
    if tries % 2 == 1 {
        return after_first.saturating_mul(span) / (after_first + before_last).max(1);
    }
    if after_first <= before_last {
        after_first
    } else {
        span.saturating_sub(before_last)
    }
}
