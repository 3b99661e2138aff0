//! Whole numbers in decimal digits.

ghost use Rattle.std.specs.Prelude.{◌≡◌, ◌<◌, ◌+◌, ◌*◌, ◌^◌, ◌∷◌, ◌++◌, IfSome};
ghost use Rattle.std.specs.Prelude.{decimal, length, negsuc, pos};

/// The most that a digit may follow, whatever the digit: ten times it and 9 fit 64 bits.
const MOST_BEFORE_ANY: u64 = u64::MAX / 10 - 1;

/// The value of the digit that a text begins with, and the text behind it.
#[inline(always)]
fn digit<'a>(text: &'a [u8]) -> Option<(u64, &'a [u8])>
    ensures cut { IfSome result (λ r. text.now ≡ (48 + r.0) ∷ r.1.now) }
    ensures value { IfSome result (λ r. r.0 < 10) }
    ensures shorter { IfSome result (λ r. length r.1.now < length text.now) }
{
    match text.split_first() {
        Some((first, rest)) => match *first {
            b'0'..=b'9' => Some((u64::from(*first - b'0'), rest)),
            _ => None,
        },
        None => None,
    }
}

/// A number of 64 bits with one more digit, where it still fits.
#[inline(always)]
fn with_digit(number: u64, digit: u64) -> Option<u64>
    requires { digit < 10 }
    ensures value { IfSome result (λ more. more ≡ 10 * number + digit) }
    ensures fits { IfSome result (λ more. more < 2 ^ 64) }
{
    if number > MOST_BEFORE_ANY && (number > u64::MAX / 10 || digit > u64::MAX % 10) {
        return None;
    }
    Some(10 * number + digit)
}

/// A whole number of 64 bits without a sign, and the text behind it. No digit follows a 0 that comes first.
#[inline(always)]
pub fn number<'a>(text: &'a [u8]) -> Option<(u64, &'a [u8])>
    ensures cut { IfSome result (λ r. text.now ≡ decimal r.0 ++ r.1.now) }
    ensures fits { IfSome result (λ r. r.0 < 2 ^ 64) }
    ensures shorter { IfSome result (λ r. length r.1.now < length text.now) }
{
    let (first, behind_first) = digit(text)?;
    if first == 0 {
        return Some((0, behind_first));
    }
    let mut number = first;
    let mut rest = behind_first;
    'digits: while let Some((next, behind_next)) = digit(rest) {
        number = with_digit(number, next)?;
        rest = behind_next;
    }
    Some((number, rest))
}

/// The number with a sign, where it fits 64 bits.
pub fn signed(number: u64) -> Option<i64>
    ensures value { IfSome result (λ z. z ≡ pos number) }
    ensures fits { IfSome result (λ z. number < 2 ^ 63) }
{
    i64::try_from(number).ok()
}

/// The number that stands so far below -1, where it fits 64 bits.
pub fn below(far: u64) -> Option<i64>
    ensures value { IfSome result (λ z. z ≡ negsuc far) }
    ensures fits { IfSome result (λ z. far < 2 ^ 63) }
{
    match i64::try_from(far) {
        Ok(far) => Some(-1 - far),
        Err(_) => None,
    }
}
