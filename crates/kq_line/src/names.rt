//! Names in quotation marks.

ghost use Rattle.std.specs.Prelude.{◌≡◌, ◌<◌, ◌≤◌, ◌∷◌, ◌++◌, IfSome, List, ℕ};
ghost use Rattle.std.specs.Prelude.{length, slice_index};
ghost use Rattle.json.specs.Spaced.{IsGap};
ghost use Rattle.kq_line.specs.Names.{IsLetter, IsName};

use crate::cursor::{behind, without_blank};

/// How many small letters of ASCII a text begins with.
#[inline(always)]
fn small_letters(text: &[u8]) -> usize
    ensures within { result ≤ length text.now }
    ensures each { (k : ℕ) → k < result → IsLetter (slice_index text.now k) }
{
    for (count, byte) in text.iter().enumerate() {
        if !matches!(*byte, b'a'..=b'z') {
            return count;
        }
    }
    text.len()
}

/// How many capital letters of ASCII a text begins with.
#[inline(always)]
fn capital_letters(text: &[u8]) -> usize
    ensures within { result ≤ length text.now }
    ensures each { (k : ℕ) → k < result → IsLetter (slice_index text.now k) }
{
    for (count, byte) in text.iter().enumerate() {
        if !matches!(*byte, b'A'..=b'Z') {
            return count;
        }
    }
    text.len()
}

/// How many letters of one case a text begins with: no name of a trace has both.
#[inline(always)]
fn letters(text: &[u8]) -> usize
    ensures within { result ≤ length text.now }
    ensures each { (k : ℕ) → k < result → IsLetter (slice_index text.now k) }
{
    match text.first() {
        Some(b'A'..=b'Z') => capital_letters(text),
        _ => small_letters(text),
    }
}

/// A name in quotation marks, and the text behind it.
#[inline(always)]
pub fn quoted<'a>(text: &'a [u8]) -> Option<(&'a [u8], &'a [u8])>
    ensures cut { IfSome result (λ r. text.now ≡ 34 ∷ (r.0.now ++ 34 ∷ r.1.now)) }
    ensures name { IfSome result (λ r. IsName r.0.now) }
    ensures shorter { IfSome result (λ r. length r.1.now < length text.now) }
{
    let inside = behind(text, b'"')?;
    let (name, rest) = inside.split_at(letters(inside));
    let behind_name = behind(rest, b'"')?;
    Some((name, behind_name))
}

/// The name of a member, and the text behind its colon and a blank there.
#[inline(always)]
pub fn key<'a>(text: &'a [u8]) -> Option<(&'a [u8], &'a [u8])>
    ensures cut { IfSome result (λ r. (gap : List ℕ) × IsGap gap
        × (text.now ≡ 34 ∷ (r.0.now ++ 34 ∷ 58 ∷ (gap ++ r.1.now)))) }
    ensures name { IfSome result (λ r. IsName r.0.now) }
    ensures shorter { IfSome result (λ r. length r.1.now < length text.now) }
{
    let (name, behind_name) = quoted(text)?;
    let behind_colon = behind(behind_name, b':')?;
    Some((name, without_blank(behind_colon)))
}
