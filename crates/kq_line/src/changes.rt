//! A change, and the list of changes of a record.

ghost use Rattle.std.specs.Prelude.{◌≡◌, ◌<◌, ◌≤◌, true, IfSome, Some, length};
ghost use Rattle.serde_json.specs.Data.{Members, object};
ghost use Rattle.kq_model.specs.ChangeText.{change_of, extra_width, is_change};
ghost use Rattle.kq_line.specs.Shows.{Shows};
ghost use Rattle.kq_line.specs.Values.{IsChange, IsChangeList};

use crate::cursor::{behind, without_blank};
use crate::found::Found;
use crate::members::change_members;
use crate::usual_change::{change_with, usual_change};
use kq_model::Change;

/// How many of the members that a change may lack are there.
fn extra_width(found: &Found) -> usize
    ensures count { (ms : Members) → Shows found.now ms → result ≡ extra_width (object ms) }
    ensures small { result ≤ 3 }
{
    usize::from(found.has(b"fflags"))
        + usize::from(found.has(b"data"))
        + usize::from(found.has(b"udata"))
}

/// The change that has these members, and no further ones.
fn change_from(found: &Found) -> Option<Change>
    ensures { IfSome result (λ change. (ms : Members) → Shows found.now ms
        → (is_change (object ms) ≡ true) × (change_of (object ms) ≡ Some change)) }
{
    let ident = found.u64_at(b"ident")?;
    let filter = found.filter_at(b"filter")?;
    let flags = found.flags_at(b"flags")?;
    let fflags = found.u32_or_zero(b"fflags")?;
    let datum = found.i64_or_zero(b"data")?;
    let udata = found.u64_or_zero(b"udata")?;
    if found.width() != 3 + extra_width(found) {
        return None;
    }
    Some(change_with(ident, filter, flags, fflags, datum, udata))
}

/// A change, and the text behind it. `found` is room for its members.
fn change<'a>(text: &'a [u8], found: &mut Found<'a>) -> Option<(Change, &'a [u8])>
    ensures value { IfSome result (λ r. IsChange text.now r.0 r.1.now) }
    ensures shorter { IfSome result (λ r. length r.1.now < length text.now) }
{
    if let Some(usual) = usual_change(text) {
        return Some(usual);
    }
    let members = behind(text, b'{')?;
    let tail = change_members(members, found)?;
    let change = change_from(found)?;
    Some((change, tail))
}

/// Reads the changes of a list, from behind its bracket, in place of those in `changes`; and gives the text
/// behind the bracket that closes it. `found` is room for the members of one change.
pub fn change_list<'a>(
    text: &'a [u8],
    changes: &mut Vec<Change>,
    found: &mut Found<'a>,
) -> Option<&'a [u8]>
    ensures value { IfSome result (λ tail. IsChangeList text.now changes.new.items tail.now) }
    ensures shorter { IfSome result (λ tail. length tail.now < length text.now) }
{
    changes.clear();
    if let Some(tail) = behind(text, b']') {
        return Some(tail);
    }
    let mut rest = text;
    'changes: loop {
        let (change, behind_change) = change(rest, found)?;
        let Ok(()) = changes.push(change) else {
            return None;
        };
        if let Some(tail) = behind(behind_change, b']') {
            return Some(tail);
        }
        rest = without_blank(behind(behind_change, b',')?);
    }
}
