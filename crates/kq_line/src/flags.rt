//! Lists of names of flags.

ghost use Rattle.std.specs.Prelude.{◌≡◌, ◌<◌, IfSome, Some, length};
ghost use Rattle.bitflags.specs.Sets.{find_name};
ghost use Rattle.kq_model.specs.FlagNames.{flag_table};
ghost use Rattle.kq_line.specs.Values.{AreFlagNames};

use crate::cursor::{behind, is, without_blank};
use crate::names::quoted;
use bitflags::Flags;
use kq_model::EvFlags;

/// The flag of this name.
fn flag_named(name: &[u8]) -> Option<EvFlags>
    ensures { IfSome result (λ flag. find_name flag_table name.now ≡ Some flag.0) }
{
    if is(name, b"ADD") {
        Some(EvFlags::ADD)
    } else if is(name, b"CLEAR") {
        Some(EvFlags::CLEAR)
    } else if is(name, b"ONESHOT") {
        Some(EvFlags::ONESHOT)
    } else if is(name, b"DELETE") {
        Some(EvFlags::DELETE)
    } else if is(name, b"ENABLE") {
        Some(EvFlags::ENABLE)
    } else if is(name, b"DISABLE") {
        Some(EvFlags::DISABLE)
    } else if is(name, b"DISPATCH") {
        Some(EvFlags::DISPATCH)
    } else if is(name, b"RECEIPT") {
        Some(EvFlags::RECEIPT)
    } else if is(name, b"EOF") {
        Some(EvFlags::EOF)
    } else if is(name, b"ERROR") {
        Some(EvFlags::ERROR)
    } else {
        None
    }
}

/// The flags that the names of a list name, each of them once, from behind its bracket; and the text behind
/// the bracket that closes it.
pub fn flag_names<'a>(text: &'a [u8]) -> Option<(EvFlags, &'a [u8])>
    ensures value { IfSome result (λ r. AreFlagNames text.now r.0.0 r.1.now) }
    ensures shorter { IfSome result (λ r. length r.1.now < length text.now) }
{
    let mut flags = EvFlags::empty();
    if let Some(tail) = behind(text, b']') {
        return Some((flags, tail));
    }
    let mut rest = text;
    'names: loop {
        let (name, behind_name) = quoted(rest)?;
        flags = flags.union(flag_named(name)?);
        if let Some(tail) = behind(behind_name, b']') {
            return Some((flags, tail));
        }
        rest = without_blank(behind(behind_name, b',')?);
    }
}
