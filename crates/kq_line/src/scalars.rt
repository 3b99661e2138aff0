//! Values that have no parts: numbers, names, true and false.

ghost use Rattle.std.specs.Prelude.{◌≡◌, ◌<◌, ◌++◌, IfSome, length};
ghost use Rattle.kq_line.specs.Values.{IsScalar};

use crate::cursor::{behind, behind_word};
use crate::names::quoted;
use crate::numbers::number;
use crate::piece::Piece;

#[inline(always)]
fn name_value<'a>(text: &'a [u8]) -> Option<(Piece<'a>, &'a [u8])>
    ensures value { IfSome result (λ r. IsScalar text.now r.0 r.1.now) }
    ensures shorter { IfSome result (λ r. length r.1.now < length text.now) }
{
    let (name, tail) = quoted(text)?;
    Some((Piece::Name(name), tail))
}

#[inline(always)]
fn number_value<'a>(text: &'a [u8]) -> Option<(Piece<'a>, &'a [u8])>
    ensures value { IfSome result (λ r. IsScalar text.now r.0 r.1.now) }
    ensures shorter { IfSome result (λ r. length r.1.now < length text.now) }
{
    let (number, tail) = number(text)?;
    Some((Piece::Number(number), tail))
}

/// A number below 0; one below -2^63 is not read here, nor is -0, which is no whole number.
#[inline(always)]
fn below_value<'a>(text: &'a [u8]) -> Option<(Piece<'a>, &'a [u8])>
    ensures value { IfSome result (λ r. IsScalar text.now r.0 r.1.now) }
    ensures shorter { IfSome result (λ r. length r.1.now < length text.now) }
{
    let (size, tail) = number(behind(text, b'-')?)?;
    if size == 0 || size > 1 << 63 {
        return None;
    }
    Some((Piece::Below(size - 1), tail))
}

#[inline(always)]
fn truth_value<'a>(text: &'a [u8]) -> Option<(Piece<'a>, &'a [u8])>
    ensures value { IfSome result (λ r. IsScalar text.now r.0 r.1.now) }
    ensures shorter { IfSome result (λ r. length r.1.now < length text.now) }
{
    if let Some(tail) = behind_word(text, b"true") {
        return Some((Piece::Truth(true), tail));
    }
    let tail = behind_word(text, b"false")?;
    Some((Piece::Truth(false), tail))
}

/// A number, a name, true or false, and the text behind it.
#[inline(always)]
pub fn scalar<'a>(text: &'a [u8]) -> Option<(Piece<'a>, &'a [u8])>
    ensures value { IfSome result (λ r. IsScalar text.now r.0 r.1.now) }
    ensures shorter { IfSome result (λ r. length r.1.now < length text.now) }
{
    match text.first() {
        Some(b'"') => name_value(text),
        Some(b'0'..=b'9') => number_value(text),
        Some(b'-') => below_value(text),
        _ => truth_value(text),
    }
}
