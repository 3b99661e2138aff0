//! What a table wants of its rows: a key, perhaps a target, and numbers to keep guesses by.

ghost use Rattle.std.specs.Prelude.{◌≡◌, Option, None, true};

use kq_model::Key;
use std::hash::Hash;

/// A row that is told apart from others by its key, and may watch what other rows watch too.
pub trait Keyed: Copy {
    type Key: Copy + Eq + Hash;

    type Target: Copy + Eq + Hash;

    ghost key_of: { Self → Self.Key };

    // None where it watches nothing that others watch.
    ghost target_of: { Self → Option Self.Target };

    fn key(&self) -> Self::Key
        ensures { result ≡ key_of self.now };

    fn target(&self) -> Option<Self::Target>
        ensures { result ≡ target_of self.now };

    /// A number by which a guess is kept of where the row of a key stands. Keys may share one.
    fn number_of_key(key: Self::Key) -> usize;

    /// A number by which a guess is kept of where the first row stands that watches a target. Targets may share
    /// one.
    fn number_of_target(target: Self::Target) -> usize;

    // Keys that are equal are one.
    ghost one_key: { (a b : Self.Key) → Self.Key.eq a b ≡ true → a ≡ b };
}

/// How far apart the numbers of keys of one ident are.
const FILTERS_APART: usize = 0x9E37_79B9;

/// What spreads the high half of an ident over the low bits of a number.
const SPREAD: u64 = 0x9E37_79B9_7F4A_7C15;

/// A number of a key: small where its ident is. Idents that follow each other have numbers that do, and those that
/// differ in their high halves have others.
#[inline(always)]
pub fn number_of(key: Key) -> usize {
    let high = (key.ident >> 32).wrapping_mul(SPREAD) >> 32;
    (key.ident.wrapping_add(high) as usize).wrapping_add(
        (key.filter as usize).wrapping_mul(FILTERS_APART),
    )
}

/// A key is a row of itself alone, and watches nothing.
impl Keyed for Key {
    ghost use Rattle.std.proofs.Common.{rules};
    ghost use Rattle.kq_table.specs.OneKey.{one_key_by};

    type Key = Key;

    type Target = Key;

    ghost key_of = { λ key. key };

    ghost target_of = { λ _. None };

    fn key(&self) -> Key {
        *self
    }

    fn target(&self) -> Option<Key> {
        None
    }

    fn number_of_key(key: Key) -> usize {
        number_of(key)
    }

    fn number_of_target(target: Key) -> usize {
        number_of(target)
    }

    ghost one_key = { one_key_by _ (λ a b. Prim.search rules) };
}
