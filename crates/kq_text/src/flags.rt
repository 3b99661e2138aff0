//! The list of the names of flags, as it stands in a line.

ghost use Rattle.std.specs.Prelude.{◌≡◌, ◌≤◌, ◌∷◌, ◌+◌, ◌++◌, [], IfSome, length, OnOk, take};
ghost use Rattle.serde_json.specs.Written.{compact_text};
ghost use Rattle.kq_model.specs.Spelling.{flags_data};
ghost use Rattle.kq_text.specs.Adds.{Adds};
ghost use Rattle.kq_text.specs.FlagText.{mark};
ghost use Rattle.kq_text.specs.Room.{HasRoom, TakesAtMost};
ghost use Rattle.kq_text.specs.Writes.{Writes};

use crate::over::{write_at, write_first_at};
use bitflags::Flags;
use kq_model::{EvFlags, Memory};

/// How many bytes the list of the names of flags has at most.
pub const FLAGS_BYTES: usize = 96;

/// Adds the list of the names of the flags that are set.
pub fn put_flags(out: &mut Vec<u8>, flags: EvFlags) -> Result<(), Memory>
    ensures { OnOk result (Adds out.old.items (compact_text (flags_data flags)) out.new.items) }
{
    out.reserve(FLAGS_BYTES)?;
    push_flags(out, flags);
    Ok(())
}

/// Adds the list of the names of the flags that are set, where there is room for it.
pub fn push_flags(out: &mut Vec<u8>, flags: EvFlags)
    requires { HasRoom out.old FLAGS_BYTES }
    ensures text { Adds out.old.items (compact_text (flags_data flags)) out.new.items }
    ensures room { TakesAtMost out.old out.new FLAGS_BYTES }
{
    let mut names = [0; FLAGS_BYTES];
    let end = write_flags_at(&mut names, 0, flags);
    match out.extend_from_slice(&names[..end]) {
        Ok(()) => {}
        Err(_) => unreachable!(),
    }
}

/// Writes the list of the names of the flags that are set over bytes that are there, from a place on. Where it ends is
/// returned.
#[inline(always)]
pub fn write_flags_at(out: &mut [u8], start: usize, flags: EvFlags) -> usize
    requires { start + FLAGS_BYTES ≤ length out.old }
    ensures text { Writes out.old start (compact_text (flags_data flags)) out.new result }
    ensures short { result ≤ start + FLAGS_BYTES }
{
    match usual_names(flags) {
        Some((names, bytes)) => write_first_at(out, start, names, bytes),
        None => write_names_at(out, start, flags),
    }
}

/// The list of no name, or of one that events often have alone, with blanks behind it up to 16 bytes, and how many
/// bytes it has without them.
#[inline(always)]
fn usual_names(flags: EvFlags) -> Option<(&'static str, usize)>
    ensures text { IfSome result (λ names. take names.1 names.0.now ≡ compact_text (flags_data flags)) }
    ensures within { IfSome result (λ names. names.1 ≤ length names.0.now) }
    ensures short { IfSome result (λ names. length names.0.now ≤ 16) }
{
    if flags.is_empty() {
        Some(("[]              ", 2))
    } else if flags == EvFlags::CLEAR {
        Some(("[\"CLEAR\"]       ", 9))
    } else if flags == EvFlags::EOF {
        Some(("[\"EOF\"]         ", 7))
    } else if flags == EvFlags::ONESHOT {
        Some(("[\"ONESHOT\"]     ", 11))
    } else if flags == EvFlags::DISPATCH {
        Some(("[\"DISPATCH\"]    ", 12))
    } else {
        None
    }
}

/// The list of the names of any flags, name by name.
fn write_names_at(out: &mut [u8], start: usize, flags: EvFlags) -> usize
    requires { start + FLAGS_BYTES ≤ length out.old }
    ensures text { Writes out.old start (compact_text (flags_data flags)) out.new result }
    ensures short { result ≤ start + FLAGS_BYTES }
{
    let mut end = write_at(out, start, "[");
    let mut is_later = false;
    for flag in EvFlags::flags() {
        if flags.contains(flag.value) {
            end = write_name_at(out, end, flag.name, is_later);
            is_later = true;
        }
    }
    write_at(out, end, "]")
}

/// Writes a name in quotation marks, behind a comma where a name stands before.
fn write_name_at(out: &mut [u8], start: usize, name: &str, is_later: bool) -> usize
    requires { start + (length name.now + 3) ≤ length out.old }
    ensures text { Writes out.old start (mark is_later ++ (name.now ++ 34 ∷ [])) out.new result }
    ensures short { result ≤ start + (length name.now + 3) }
{
    let begun = write_at(out, start, if is_later { ",\"" } else { "\"" });
    let named = write_at(out, begun, name);
    write_at(out, named, "\"")
}
