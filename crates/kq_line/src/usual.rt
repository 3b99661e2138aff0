//! A record whose members stand in the order in which programs write them.

ghost use Rattle.std.specs.Prelude.{◌≡◌, ℕ, List, IfSome, Ok, Some};
ghost use Rattle.kq_model.specs.Kinds.{kind_named};
ghost use Rattle.kq_model.specs.Reading.{event_of, json_of};
ghost use Rattle.kq_line.specs.Usual.{IsEventFrom, IsLineUpTo, with_op, with_pid};

use crate::changes::change_list;
use crate::cursor::behind;
use crate::found::Found;
use crate::keys::{behind_key, behind_next_key};
use crate::kinds::kind_named;
use crate::names::quoted;
use crate::usual_members::{ends, next_u32};
use crate::usual_records::{clock, file, note, of_descriptor, of_process, truncate};
use kq_model::{Event, RecordKind, Series};

/// The kind of a record whose name comes first, and the text behind that.
#[inline(always)]
fn kind_first<'a>(line: &'a [u8]) -> Option<(RecordKind, &'a [u8])>
    ensures { IfSome result (λ r. (op : List ℕ) × (kind_named op ≡ Some r.0)
        × IsLineUpTo line.now r.1.now (with_op op)) }
{
    let (name, rest) = quoted(behind_key(behind(line, b'{')?, b"op")?)?;
    Some((kind_named(name)?, rest))
}

/// The kevent call, from behind its `pid`. `found` and `change` are room for its changes.
#[inline(always)]
fn kevent<'a>(
    pid: u32,
    text: &'a [u8],
    found: &mut Found<'a>,
    change: &mut Found<'a>,
) -> Option<Event>
    ensures { IfSome result (IsEventFrom RecordKind.Kevent (with_pid pid) text.now) }
{
    let (fd, rest) = next_u32(text, b"fd")?;
    let items = behind(behind_next_key(rest, b"changes")?, b'[')?;
    let rest = change_list(items, &mut found.changes, change)?;
    let (room, rest) = next_u32(rest, b"room")?;
    ends(rest)?;
    let alloc = *found.changes.allocator();
    match Vec::from_slice(alloc, found.changes.as_slice()) {
        Ok(changes) => Some(Event::Kevent {
            pid,
            fd,
            changes: Series::from_vec(changes),
            room,
        }),
        Err(_) => None,
    }
}

/// A record of a process, from behind its kind.
#[inline(always)]
fn by_process<'a>(
    kind: RecordKind,
    text: &'a [u8],
    found: &mut Found<'a>,
    change: &mut Found<'a>,
) -> Option<Event>
    ensures { IfSome result (IsEventFrom kind with_op text.now) }
{
    let (pid, rest) = next_u32(text, b"pid")?;
    match kind {
        RecordKind::Kevent => kevent(pid, rest, found, change),
        RecordKind::Proc
        | RecordKind::Exec
        | RecordKind::Fork
        | RecordKind::Exit
        | RecordKind::Sig => { of_process(kind, pid, rest) }
        _ => of_descriptor(kind, pid, rest),
    }
}

/// The record that a line is, where its members stand so. `found` and `change` are room for its changes. A kind of
/// which a trace has few records may be left out.
pub fn usual_event<'a>(
    line: &'a [u8],
    found: &mut Found<'a>,
    change: &mut Found<'a>,
) -> Option<Event>
    ensures { IfSome result (λ e. event_of (json_of line.now) ≡ Ok e) }
{
    let (kind, rest) = kind_first(line)?;
    match kind {
        RecordKind::File => file(rest),
        RecordKind::Truncate => truncate(rest),
        RecordKind::Note => note(rest),
        RecordKind::Clock => clock(rest),
        _ => by_process(kind, rest, found, change),
    }
}
