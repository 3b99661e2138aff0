//! Text over bytes that are there already: nothing grows, and where it ends stays at hand. So it costs less than text
//! that is put behind the bytes of a `Vec`.

ghost use Rattle.std.specs.Prelude.{◌<◌, ◌≤◌, ◌+◌, ◌≡◌, ◌^◌, decimal, length, take};
ghost use Rattle.std.specs.Fmt.{signed_decimal};
ghost use Rattle.kq_text.specs.Writes.{Writes};

use itoa::write_digits;

/// How many bytes an integer of 64 bits has at most in decimal digits, with a sign.
pub const NUMBER_BYTES: usize = 20;

/// Writes a text from a place on. Where it ends is returned.
#[inline(always)]
pub fn write_at(out: &mut [u8], start: usize, text: &str) -> usize
    requires { start + length text.now ≤ length out.old }
    ensures { Writes out.old start text.now out.new result }
{
    let end = start + text.len();
    out[start..end].copy_from_slice(text.as_bytes());
    end
}

/// Writes the first bytes of a text, so many, from a place on. What stands behind them in the text may be written too:
/// texts that have one length all cost as little as one that is known.
#[inline(always)]
pub fn write_first_at(out: &mut [u8], start: usize, text: &str, bytes: usize) -> usize
    requires room { start + length text.now ≤ length out.old }
    requires within { bytes ≤ length text.now }
    ensures { Writes out.old start (take bytes text.now) out.new result }
{
    write_at(out, start, text);
    start + bytes
}

/// Writes a number in decimal digits from a place on.
#[inline(always)]
pub fn write_number_at(out: &mut [u8], start: usize, number: u64) -> usize
    requires { start + NUMBER_BYTES ≤ length out.old }
    ensures text { Writes out.old start (decimal number) out.new result }
    ensures short { result ≤ start + NUMBER_BYTES }
{
    if number < 10 {
        out[start] = b'0' + number as u8;
        return start + 1;
    }
    let end = start + digit_count(number);
    write_digits(number, out, end);
    end
}

/// Writes a number with a sign in decimal digits from a place on.
#[inline(always)]
pub fn write_signed_at(out: &mut [u8], start: usize, number: i64) -> usize
    requires { start + NUMBER_BYTES < length out.old }
    ensures text { Writes out.old start (signed_decimal number) out.new result }
    ensures short { result ≤ start + NUMBER_BYTES + 1 }
{
    if number >= 0 {
        return write_number_at(out, start, number.unsigned_abs());
    }
    let digits = write_at(out, start, "-");
    write_number_at(out, digits, number.unsigned_abs())
}

/// How many decimal digits a number has.
fn digit_count(number: u64) -> usize
    ensures { result ≡ length (decimal number) }
{
    let mut rest = number;
    let mut count = 0;
    while rest >= 10_000 {
        rest /= 10_000;
        count += 4;
    }
    count + short_digit_count(rest)
}

/// How many decimal digits a number of four digits at most has.
#[inline(always)]
fn short_digit_count(number: u64) -> usize
    requires { number < 10000 }
    ensures { result ≡ length (decimal number) }
{
    if number < 100 {
        if number < 10 { 1 } else { 2 }
    } else if number < 1000 {
        3
    } else {
        4
    }
}
