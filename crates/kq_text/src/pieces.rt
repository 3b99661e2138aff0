//! Words and decimal numbers, each added to a text that grows.

ghost use Rattle.std.specs.Prelude.{◌<◌, ◌^◌, decimal, OnOk};
ghost use Rattle.std.specs.Fmt.{signed_decimal};
ghost use Rattle.std.specs.Int.{w64};
ghost use Rattle.std.specs.Int.RustNames.{FitsSigned};
ghost use Rattle.kq_text.specs.Adds.{Adds};

use crate::room::push;
use kq_model::Memory;

/// Adds a text.
pub fn put(out: &mut Vec<u8>, text: &str) -> Result<(), Memory>
    ensures { OnOk result (Adds out.old.items text.now out.new.items) }
{
    out.reserve(text.len())?;
    push(out, text);
    Ok(())
}

/// Adds an integer in decimal digits.
pub fn put_number<I: itoa::Integer>(out: &mut Vec<u8>, number: I) -> Result<(), Memory>
    ensures { OnOk result (Adds out.old.items (I.text number) out.new.items) }
{
    put(out, itoa::Buffer::new().format(number))
}

/// Adds a number of 32 bits.
pub fn put_u32(out: &mut Vec<u8>, number: u32) -> Result<(), Memory>
    ensures text { OnOk result (Adds out.old.items (decimal number) out.new.items) }
    ensures fits { number < 2 ^ 32 }
{
    put_number::<u32>(out, number)
}

/// Adds a number of 64 bits.
pub fn put_u64(out: &mut Vec<u8>, number: u64) -> Result<(), Memory>
    ensures text { OnOk result (Adds out.old.items (decimal number) out.new.items) }
    ensures fits { number < 2 ^ 64 }
{
    put_number::<u64>(out, number)
}

/// Adds a number of 64 bits with a sign.
pub fn put_i64(out: &mut Vec<u8>, number: i64) -> Result<(), Memory>
    ensures text { OnOk result (Adds out.old.items (signed_decimal number) out.new.items) }
    ensures fits { FitsSigned w64 number }
{
    put_number::<i64>(out, number)
}
