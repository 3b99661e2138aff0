//! The members of an object, one after the other, in whatever order they stand.

ghost use Rattle.std.specs.Prelude.{◌≡◌, ◌<◌, IfSome, length};
ghost use Rattle.serde_json.specs.Data.{Members};
ghost use Rattle.kq_line.specs.Shows.{Shows};
ghost use Rattle.kq_line.specs.Spells.{AreMembers};
ghost use Rattle.kq_line.specs.Values.{IsPartOfChange, IsPartOfRecord};

use crate::changes::change_list;
use crate::cursor::{behind, without_blank};
use crate::flags::flag_names;
use crate::found::Found;
use crate::names::key;
use crate::piece::{Member, Piece};
use crate::scalars::scalar;

/// The value of a member of a change, and the text behind it: names of flags, or no list.
#[inline(always)]
fn change_value<'a>(text: &'a [u8]) -> Option<(Piece<'a>, &'a [u8])>
    ensures value { IfSome result (λ r. IsPartOfChange text.now r.0 r.1.now) }
    ensures shorter { IfSome result (λ r. length r.1.now < length text.now) }
{
    match behind(text, b'[') {
        Some(names) => {
            let (flags, tail) = flag_names(names)?;
            Some((Piece::Flags(flags), tail))
        }
        None => scalar(text),
    }
}

/// The value of a member of a record, and the text behind it: its one list of changes, or no list.
#[inline(always)]
fn record_value<'a>(
    text: &'a [u8],
    found: &mut Found<'a>,
    change: &mut Found<'a>,
) -> Option<(Piece<'a>, &'a [u8])>
    ensures value { IfSome result (λ r. IsPartOfRecord found.new text.now r.0 r.1.now) }
    ensures members { found.new.members ≡ found.old.members }
    ensures keeps { IfSome result (λ r. (ms : Members) → Shows found.old ms → Shows found.new ms) }
    ensures shorter { IfSome result (λ r. length r.1.now < length text.now) }
{
    match behind(text, b'[') {
        Some(items) => {
            if found.has_changes {
                return None;
            }
            let tail = change_list(items, &mut found.changes, change)?;
            found.has_changes = true;
            Some((Piece::Changes, tail))
        }
        None => scalar(text),
    }
}

/// Reads the members of a change, from behind its brace, in place of what was found before; and gives the
/// text behind the brace that closes it.
pub fn change_members<'a>(text: &'a [u8], change: &mut Found<'a>) -> Option<&'a [u8]>
    ensures value { IfSome result (λ tail. (ms : Members) × AreMembers 1 text.now tail.now ms
        × Shows change.new ms) }
    ensures shorter { IfSome result (λ tail. length tail.now < length text.now) }
{
    change.clear();
    let mut rest = text;
    'members: loop {
        let (name, value) = key(rest)?;
        let (piece, behind_value) = change_value(value)?;
        if change.members.is_full() {
            return None;
        }
        if change.has(name) {
            return None;
        }
        change.members.push(Member { name, piece });
        if let Some(tail) = behind(behind_value, b'}') {
            return Some(tail);
        }
        rest = without_blank(behind(behind_value, b',')?);
    }
}

/// Reads the members of a record, from behind its brace, in place of what was found before; and gives the
/// text behind the brace that closes it. `change` is room for the members of one change.
pub fn record_members<'a>(
    text: &'a [u8],
    found: &mut Found<'a>,
    change: &mut Found<'a>,
) -> Option<&'a [u8]>
    ensures value { IfSome result (λ tail. (ms : Members) × AreMembers 3 text.now tail.now ms × Shows found.new ms) }
    ensures shorter { IfSome result (λ tail. length tail.now < length text.now) }
{
    found.clear();
    let mut rest = text;
    'members: loop {
        let (name, value) = key(rest)?;
        let (piece, behind_value) = record_value(value, found, change)?;
        if found.members.is_full() {
            return None;
        }
        if found.has(name) {
            return None;
        }
        found.members.push(Member { name, piece });
        if let Some(tail) = behind(behind_value, b'}') {
            return Some(tail);
        }
        rest = without_blank(behind(behind_value, b',')?);
    }
}
