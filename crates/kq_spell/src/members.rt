//! The members of a record, as they are spelled.

ghost use Rattle.std.specs.Prelude.{◌≡◌, ◌∷◌, ◌++◌, [], codes, false, map, true, OnOk};
ghost use Rattle.serde_json.specs.Data.{array, boolean, object, string};
ghost use Rattle.serde_json.specs.View.{items_of};
ghost use Rattle.serde_json.specs.Written.{comma_if, compact_text};
ghost use Rattle.kq_model.specs.Spelling.{change_data, integer, line_text, members_data, value_data};
ghost use Rattle.kq_text.specs.Adds.{Adds};
ghost use Rattle.kq_spell.specs.Again.{FitsChanges, FitsInteger, FitsValue, FitMembers};
ghost use Rattle.kq_spell.specs.Texts.{is_word, are_words, is_spelled_by_words, member_of, members_rest, value_of};

use crate::spell::{end_line, put_changes};
use kq_model::{Change, Memory};
use kq_text::{put, put_i64, put_u32};

/// The value of a member of a record.
#[derive(Drop, Clone, Copy)]
pub enum Spelled<'a> {
    Number(u32),
    /// A number with a sign.
    Integer(i64),
    Truth(bool),
    /// A name of small letters.
    Name(&'a str),
    Changes(&'a [Change]),
}

/// Adds a name of small letters, which has nothing to escape.
fn put_name(out: &mut Vec<u8>, name: &str) -> Result<(), Memory>
    requires { is_word name.now ≡ true }
    ensures { OnOk result (Adds out.old.items (compact_text (string name.now)) out.new.items) }
{
    put(out, "\"")?;
    put(out, name)?;
    put(out, "\"")
}

/// Adds a number with a sign.
fn put_integer(out: &mut Vec<u8>, number: i64) -> Result<(), Memory>
    ensures text { OnOk result (Adds out.old.items (compact_text (integer number)) out.new.items) }
    ensures fits { FitsInteger number }
{
    put_i64(out, number)
}

/// Adds true or false.
fn put_truth(out: &mut Vec<u8>, truth: bool) -> Result<(), Memory>
    ensures { OnOk result (Adds out.old.items (compact_text (boolean truth)) out.new.items) }
{
    if truth {
        put(out, "true")
    } else {
        put(out, "false")
    }
}

/// Adds a list of changes.
fn put_list(out: &mut Vec<u8>, changes: &[Change]) -> Result<(), Memory>
    ensures text { OnOk result
        (Adds out.old.items (compact_text (array (items_of (map change_data changes.now)))) out.new.items) }
    ensures fits { OnOk result (FitsChanges changes.now) }
{
    put(out, "[")?;
    put_changes(out, changes)
}

/// Adds the value of a member.
#[tactic(auto, unfolding(kq_model::specs::Spelling::natural))]
fn put_value(out: &mut Vec<u8>, value: Spelled) -> Result<(), Memory>
    requires { is_spelled_by_words value ≡ true }
    ensures text { OnOk result (Adds out.old.items (compact_text (value_data (value_of value.entry))) out.new.items) }
    ensures fits { OnOk result (FitsValue (value_of value.entry)) }
{
    match value {
        Spelled::Number(number) => put_u32(out, number),
        Spelled::Integer(integer) => put_integer(out, integer),
        Spelled::Truth(truth) => put_truth(out, truth),
        Spelled::Name(name) => put_name(out, name),
        Spelled::Changes(changes) => put_list(out, changes),
    }
}

/// Adds a member, behind a comma where one stands before.
fn put_member(out: &mut Vec<u8>, name: &str, value: Spelled, is_later: bool) -> Result<(), Memory>
    requires name { is_word name.now ≡ true }
    requires value { is_spelled_by_words value ≡ true }
    ensures text { OnOk result (Adds out.old.items
        (comma_if is_later
        ++ (compact_text (string name.now) ++ 58 ∷ compact_text (value_data (value_of value.entry))))
        out.new.items) }
    ensures fits { OnOk result (FitsValue (value_of value.entry)) }
{
    put(out, if is_later { "," } else { "" })?;
    put_name(out, name)?;
    put(out, ":")?;
    put_value(out, value)
}

/// Adds the members of a record behind its brace, and the end of its line.
fn put_members(out: &mut Vec<u8>, members: &[(&str, Spelled)]) -> Result<(), Memory>
    requires { are_words members.now ≡ true }
    ensures text { OnOk result (Adds out.old.items (members_rest false members.now ++ 10 ∷ []) out.new.items) }
    ensures fits { OnOk result (FitMembers (map member_of members.now)) }
{
    let mut is_later = false;
    for member in members {
        put_member(out, member.0, member.1, is_later)?;
        is_later = true;
    }
    end_line(out)
}

/// Adds the line of an object with these members.
pub fn put_line(out: &mut Vec<u8>, members: &[(&str, Spelled)]) -> Result<(), Memory>
    requires { are_words members.now ≡ true }
    ensures text { OnOk result
        (Adds out.old.items (line_text (object (members_data (map member_of members.now)))) out.new.items) }
    ensures fits { OnOk result (FitMembers (map member_of members.now)) }
{
    put(out, "{")?;
    put_members(out, members)
}
