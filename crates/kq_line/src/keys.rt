//! The keys of members that stand where programs write them.

ghost use Rattle.std.specs.Prelude.{◌<◌, IfSome, length};
ghost use Rattle.kq_line.specs.Usual.{IsKey, IsNextKey};

use crate::cursor::{behind, behind_word, without_blank};

/// The text behind this name in quotation marks, a colon and a blank or none.
#[inline(always)]
pub fn behind_key<'a, const N: usize>(text: &'a [u8], name: &[u8; N]) -> Option<&'a [u8]>
    ensures key { IfSome result (λ value. IsKey text.now name.now value.now) }
    ensures shorter { IfSome result (λ value. length value.now < length text.now) }
{
    let behind_name = behind_word(behind(text, b'"')?, name)?;
    let behind_colon = behind(behind(behind_name, b'"')?, b':')?;
    Some(without_blank(behind_colon))
}

/// The text behind a comma, a blank or none, this name in quotation marks, a colon and a blank or none.
#[inline(always)]
pub fn behind_next_key<'a, const N: usize>(text: &'a [u8], name: &[u8; N]) -> Option<&'a [u8]>
    ensures key { IfSome result (λ value. IsNextKey text.now name.now value.now) }
    ensures shorter { IfSome result (λ value. length value.now < length text.now) }
{
    let behind_comma = without_blank(behind(text, b',')?);
    behind_key(behind_comma, name)
}
