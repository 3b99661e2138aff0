//! Cutting a text into its lines, from the front and with no copy.

ghost use Rattle.std.specs.Prelude.{◌≡◌, ◌++◌, ◌<◌, ◌≤◌, ◌∷◌, IfOk, length, vec_len};
ghost use Rattle.kq_model.specs.Lines.{lines_of};
ghost use Rattle.kq_trace.specs.Rest.{lines_behind, texts};

use kq_model::Memory;
use memchr::memchr;
use std::alloc::Global;

/// The first line of a text, and what stands behind the line feed that ends it.
pub fn first_line(text: &[u8]) -> (&[u8], &[u8])
    ensures first { lines_of text.now ≡ result.0.now ∷ lines_behind result.1.now }
    ensures later { 0 < length text.now
        → lines_behind text.now ≡ result.0.now ∷ lines_behind result.1.now }
    ensures shorter { 0 < length text.now → length result.1.now < length text.now }
{
    match memchr(b'\n', text) {
        Some(end) => (&text[..end], &text[end + 1..]),
        None => (text, &text[text.len()..]),
    }
}

/// The lines of what stands behind a line feed, up to so many of them, and the text behind those.
pub fn lines_up_to<'a>(
    alloc: Global,
    text: &'a [u8],
    most: u64,
) -> Result<(Vec<&'a [u8]>, &'a [u8]), Memory>
    ensures all { IfOk result (λ cut. lines_behind text.now ≡ texts cut.0.items ++ lines_behind cut.1.now) }
    ensures few { IfOk result (λ cut. vec_len cut.0 ≤ most) }
    ensures full { IfOk result (λ cut. 0 < length cut.1.now → vec_len cut.0 ≡ most) }
{
    let mut lines = Vec::new(alloc);
    let mut rest = text;
    'lines: while !rest.is_empty() && (lines.len() as u64) < most {
        let (line, behind) = first_line(rest);
        lines.push(line)?;
        rest = behind;
    }
    Ok((lines, rest))
}

/// A text up to its first line feed at or behind so many bytes, and what stands behind that.
pub fn cut_behind(text: &[u8], least: usize) -> (&[u8], &[u8])
    ensures cut { lines_behind text.now ≡ lines_behind result.0.now ++ lines_behind result.1.now }
    ensures shorter { 0 < length text.now → length result.1.now < length text.now }
{
    if text.len() <= least {
        return (text, &text[text.len()..]);
    }
    match memchr(b'\n', &text[least..]) {
        Some(end) => (&text[..least + end + 1], &text[least + end + 1..]),
        None => (text, &text[text.len()..]),
    }
}
