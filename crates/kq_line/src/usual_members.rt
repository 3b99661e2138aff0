//! Members, each where programs write it.

ghost use Rattle.std.specs.Prelude.{◌≡◌, ◌<◌, ◌≤◌, ◌^◌, ℕ, ℤ, pos, List, IfSome};
ghost use Rattle.std.specs.Prelude.{IsTrue, Option, Some, length};
ghost use Rattle.std.specs.Prelude.{option_map};
ghost use Rattle.serde_json.specs.Data.{Members, number, object, put, string, unsigned};
ghost use Rattle.kq_model.specs.Members.{i64_in, moment_in};
ghost use Rattle.kq_model.specs.Reading.{json_of};
ghost use Rattle.kq_line.specs.Spells.{IsValue};
ghost use Rattle.kq_line.specs.Usual.{AreMembersUpTo, IsLineUpTo, are_letters, put_if, value_or, whole};

use crate::cursor::behind;
use crate::keys::behind_next_key;
use crate::names::quoted;
use crate::numbers::{below, number, signed};

/// A number of 32 bits without a sign, and the text behind it.
#[inline(always)]
fn number32<'a>(text: &'a [u8]) -> Option<(u32, &'a [u8])>
    ensures value { IfSome result (λ r. IsValue 0 text.now r.1.now (number (unsigned r.0))) }
    ensures fits { IfSome result (λ r. r.0 < 2 ^ 32) }
    ensures shorter { IfSome result (λ r. length r.1.now < length text.now) }
{
    let (number, tail) = number(text)?;
    match u32::try_from(number) {
        Ok(number) => Some((number, tail)),
        Err(_) => None,
    }
}

/// A number of 64 bits with a sign, and the text behind it.
#[inline(always)]
fn number_with_sign<'a>(text: &'a [u8]) -> Option<(i64, &'a [u8])>
    ensures value { IfSome result (λ r. IsValue 0 text.now r.1.now (whole r.0)) }
    ensures fits { IfSome result (λ r. i64_in (whole r.0) ≡ Some r.0) }
    ensures shorter { IfSome result (λ r. length r.1.now < length text.now) }
{
    match behind(text, b'-') {
        Some(digits) => {
            let (size, tail) = number(digits)?;
            if size == 0 {
                return None;
            }
            Some((below(size - 1)?, tail))
        }
        None => {
            let (number, tail) = number(text)?;
            Some((signed(number)?, tail))
        }
    }
}

/// The number that is the next member of a record, where that has this name, and the text behind it.
#[inline(always)]
pub fn next_u32<'a, const N: usize>(text: &'a [u8], name: &[u8; N]) -> Option<(u32, &'a [u8])>
    requires { IsTrue (are_letters name.now) }
    ensures value { IfSome result (λ r. (line : List ℕ) (ms : Members) → IsLineUpTo line text.now ms
        → IsLineUpTo line r.1.now (put name.now (number (unsigned r.0)) ms)) }
    ensures fits { IfSome result (λ r. r.0 < 2 ^ 32) }
{
    number32(behind_next_key(text, name)?)
}

/// The number with a sign that is the next member of a record, where that has this name, and the text behind it.
#[inline(always)]
pub fn next_i64<'a, const N: usize>(text: &'a [u8], name: &[u8; N]) -> Option<(i64, &'a [u8])>
    requires { IsTrue (are_letters name.now) }
    ensures value { IfSome result (λ r. (line : List ℕ) (ms : Members) → IsLineUpTo line text.now ms
        → IsLineUpTo line r.1.now (put name.now (whole r.0) ms)) }
    ensures fits { IfSome result (λ r. i64_in (whole r.0) ≡ Some r.0) }
{
    number_with_sign(behind_next_key(text, name)?)
}

/// The moment of the clock, in ns, that is the next member of a record, where that has this name, and the text behind
/// it.
#[inline(always)]
pub fn next_moment<'a, const N: usize>(text: &'a [u8], name: &[u8; N]) -> Option<(i64, &'a [u8])>
    requires { IsTrue (are_letters name.now) }
    ensures value { IfSome result (λ r. (line : List ℕ) (ms : Members) → IsLineUpTo line text.now ms
        → IsLineUpTo line r.1.now (put name.now (whole r.0) ms)) }
    ensures fits { IfSome result (λ r. moment_in (whole r.0) ≡ Some r.0) }
{
    let (number, tail) = number(behind_next_key(text, name)?)?;
    Some((signed(number)?, tail))
}

/// The name that is the next member of a record, where that has this key, and the text behind it.
#[inline(always)]
pub fn next_name<'a, const N: usize>(text: &'a [u8], key: &[u8; N]) -> Option<(&'a [u8], &'a [u8])>
    requires { IsTrue (are_letters key.now) }
    ensures { IfSome result (λ r. (line : List ℕ) (ms : Members) → IsLineUpTo line text.now ms
        → IsLineUpTo line r.1.now (put key.now (string r.0.now) ms)) }
{
    quoted(behind_next_key(text, key)?)
}

/// Whether the brace that closes the record comes next, and nothing behind it.
#[inline(always)]
pub fn ends(text: &[u8]) -> Option<()>
    ensures { IfSome result (λ _. (line : List ℕ) (ms : Members) → IsLineUpTo line text.now ms
        → json_of line ≡ Some (object ms)) }
{
    let tail = behind(text, b'}')?;
    if tail.is_empty() { Some(()) } else { None }
}

/// The number that is the next member of a change, where that has this name, and else 0; and the text behind it.
#[inline(always)]
pub fn next_u32_or_zero<'a, const N: usize>(
    text: &'a [u8],
    name: &[u8; N],
) -> Option<(u32, &'a [u8])>
    requires { IsTrue (are_letters name.now) }
    ensures value { IfSome result (λ r. (there : Option ℕ) × (r.0 ≡ value_or 0 there)
        × ((start : List ℕ) (ms : Members) → AreMembersUpTo 1 start text.now ms
        → AreMembersUpTo 1 start r.1.now (put_if name.now (option_map (λ n. number (unsigned n)) there) ms))) }
    ensures fits { IfSome result (λ r. r.0 < 2 ^ 32) }
    ensures shorter { IfSome result (λ r. length r.1.now ≤ length text.now) }
{
    match behind_next_key(text, name) {
        Some(value) => number32(value),
        None => Some((0, text)),
    }
}

/// The number of 64 bits that is the next member of a change, where that has this name, and else 0; and the text behind
/// it.
#[inline(always)]
pub fn next_u64_or_zero<'a, const N: usize>(
    text: &'a [u8],
    name: &[u8; N],
) -> Option<(u64, &'a [u8])>
    requires { IsTrue (are_letters name.now) }
    ensures value { IfSome result (λ r. (there : Option ℕ) × (r.0 ≡ value_or 0 there)
        × ((start : List ℕ) (ms : Members) → AreMembersUpTo 1 start text.now ms
        → AreMembersUpTo 1 start r.1.now (put_if name.now (option_map (λ n. number (unsigned n)) there) ms))) }
    ensures shorter { IfSome result (λ r. length r.1.now ≤ length text.now) }
{
    match behind_next_key(text, name) {
        Some(value) => number(value),
        None => Some((0, text)),
    }
}

/// The number of 64 bits with a sign that is the next member of a change, where that has this name, and else 0; and the
/// text behind it.
#[inline(always)]
pub fn next_i64_or_zero<'a, const N: usize>(
    text: &'a [u8],
    name: &[u8; N],
) -> Option<(i64, &'a [u8])>
    requires { IsTrue (are_letters name.now) }
    ensures value { IfSome result (λ r. (there : Option ℤ) × (r.0 ≡ value_or (pos 0) there)
        × ((start : List ℕ) (ms : Members) → AreMembersUpTo 1 start text.now ms
        → AreMembersUpTo 1 start r.1.now (put_if name.now (option_map whole there) ms))) }
    ensures fits { IfSome result (λ r. i64_in (whole r.0) ≡ Some r.0) }
    ensures shorter { IfSome result (λ r. length r.1.now ≤ length text.now) }
{
    match behind_next_key(text, name) {
        Some(value) => number_with_sign(value),
        None => Some((0, text)),
    }
}
