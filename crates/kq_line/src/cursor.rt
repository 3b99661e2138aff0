//! What is left of a line is a slice that gets shorter from the front: no index, and no copy.

ghost use Rattle.std.specs.Prelude.{◌≡◌, ◌<◌, ◌≤◌, ◌∷◌, ◌++◌, List, ℕ, IfSome};
ghost use Rattle.std.specs.Prelude.{IsTrue, bytes_eq, length};
ghost use Rattle.json.specs.Spaced.{IsGap};

/// The text behind this byte, where it begins with the byte.
#[inline(always)]
pub fn behind<'a>(text: &'a [u8], byte: u8) -> Option<&'a [u8]>
    ensures cut { IfSome result (λ rest. text.now ≡ byte ∷ rest.now) }
    ensures shorter { IfSome result (λ rest. length rest.now < length text.now) }
{
    match text.split_first() {
        Some((first, rest)) => { if *first == byte { Some(rest) } else { None } }
        None => None,
    }
}

/// The text behind a blank, where it begins with one.
#[inline(always)]
pub fn without_blank<'a>(text: &'a [u8]) -> &'a [u8]
    ensures cut { (gap : List ℕ) × IsGap gap × (text.now ≡ gap ++ result.now) }
    ensures shorter { length result.now ≤ length text.now }
{
    match behind(text, b' ') {
        Some(rest) => rest,
        None => text,
    }
}

/// The text behind this word, where it begins with it.
#[inline(always)]
pub fn behind_word<'a, const N: usize>(text: &'a [u8], word: &[u8; N]) -> Option<&'a [u8]>
    ensures cut { IfSome result (λ rest. text.now ≡ word.now ++ rest.now) }
    ensures shorter { IfSome result (λ rest. length rest.now ≤ length text.now) }
{
    if text.len() < word.len() {
        return None;
    }
    for (place, byte) in word.iter().enumerate() {
        if text[place] != *byte {
            return None;
        }
    }
    Some(&text[word.len()..])
}

/// Whether two names are one.
#[inline(always)]
pub fn same(name: &[u8], other: &[u8]) -> bool
    ensures { result ≡ bytes_eq name.now other.now }
{
    name == other
}

/// Whether a name is this word.
#[inline(always)]
pub fn is<const N: usize>(name: &[u8], word: &[u8; N]) -> bool
    ensures { IsTrue result → name.now ≡ word.now }
{
    match behind_word(name, word) {
        Some(rest) => rest.is_empty(),
        None => false,
    }
}
