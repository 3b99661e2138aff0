//! Changes and the header of a trace's canonical text, put together piece by piece.

ghost use Rattle.std.specs.Prelude.{◌++◌, codes, false, OnOk};
ghost use Rattle.serde_json.specs.Written.{comma_if, compact_text};
ghost use Rattle.kq_model.specs.Spelling.{change_data, header_data, line_text};
ghost use Rattle.kq_text.specs.Adds.{Adds};
ghost use Rattle.kq_spell.specs.Again.{FitsChange, FitsChanges};
ghost use Rattle.kq_spell.specs.Texts.{changes_text};

use kq_model::{Change, Memory};
use kq_text::{put, put_flags, put_i64, put_u32, put_u64};

/// Adds a change with all its members.
fn put_change(out: &mut Vec<u8>, change: &Change) -> Result<(), Memory>
    ensures text { OnOk result (Adds out.old.items (compact_text (change_data change.now)) out.new.items) }
    ensures fits { OnOk result (FitsChange change.now) }
{
    put(out, "{\"data\":")?;
    put_i64(out, change.datum)?;
    put(out, ",\"fflags\":")?;
    put_u32(out, change.fflags)?;
    put(out, ",\"filter\":\"")?;
    put(out, change.filter.name())?;
    put(out, "\",\"flags\":")?;
    put_flags(out, change.flags)?;
    put(out, ",\"ident\":")?;
    put_u64(out, change.ident)?;
    put(out, ",\"udata\":")?;
    put_u64(out, change.udata)?;
    put(out, "}")
}

/// Adds a change, behind a comma where one stands before.
fn put_item(out: &mut Vec<u8>, change: &Change, is_later: bool) -> Result<(), Memory>
    ensures text { OnOk result
        (Adds out.old.items (comma_if is_later ++ compact_text (change_data change.now)) out.new.items) }
    ensures fits { OnOk result (FitsChange change.now) }
{
    put(out, if is_later { "," } else { "" })?;
    put_change(out, change)
}

/// Adds the changes of a list behind its bracket, and the bracket that closes it.
pub fn put_changes(out: &mut Vec<u8>, changes: &[Change]) -> Result<(), Memory>
    ensures text { OnOk result (Adds out.old.items (changes_text false changes.now) out.new.items) }
    ensures fits { OnOk result (FitsChanges changes.now) }
{
    let mut is_later = false;
    for change in changes {
        put_item(out, change, is_later)?;
        is_later = true;
    }
    put(out, "]")
}

/// Adds the end of a record, and of its line.
pub fn end_line(out: &mut Vec<u8>) -> Result<(), Memory>
    ensures { OnOk result (Adds out.old.items (codes "}\n") out.new.items) }
{
    put(out, "}\n")
}

/// Adds the header's line.
pub fn put_header(out: &mut Vec<u8>, version: u32) -> Result<(), Memory>
    ensures { OnOk result (Adds out.old.items (line_text (header_data version)) out.new.items) }
{
    put(out, "{\"kqsim\":")?;
    put_u32(out, version)?;
    end_line(out)
}
