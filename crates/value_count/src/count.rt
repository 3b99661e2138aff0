//! Counting the lines of a text that are JSON values.
ghost use Rattle.std.specs.Prelude.{◌≡◌, IfOk};
ghost use Rattle.value_count.specs.Count.{is_value, values_in};

use memchr::memchr;
use serde_json::Value;
use std::alloc::{AllocError, Global};

/// How many of the pieces between the LFs of `bytes` are each one JSON value (RFC 8259) and nothing else.
///
/// A `Value` is made for each piece, and let go before the next one is read.
///
/// # Errors
///
/// `AllocError` where memory for a `Value` was refused.
pub fn count_values(alloc: Global, bytes: &[u8]) -> Result<usize, AllocError>
    ensures { IfOk result (λ n. n ≡ values_in bytes.now) }
{
    let mut rest = bytes;
    let mut values = 0usize;
    while let Some(end) = memchr(b'\n', rest) {
        if reads(alloc, &rest[..end])? {
            values += 1;
        }
        let (_, later) = rest.split_at(end + 1);
        rest = later;
    }
    if reads(alloc, rest)? {
        values += 1;
    }
    Ok(values)
}

/// Whether `line` is one JSON value.
///
/// # Errors
///
/// `AllocError` where memory for the `Value` was refused.
fn reads(alloc: Global, line: &[u8]) -> Result<bool, AllocError>
    ensures { IfOk result (λ b. b ≡ is_value line.now) }
{
    match Value::from_slice(alloc, line) {
        Ok(_) => Ok(true),
        Err(error) if error.is_memory() => Err(AllocError),
        Err(_) => Ok(false),
    }
}
