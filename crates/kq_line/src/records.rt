//! A record by its kind: one function for each.
//!
//! To add a kind, write
//! - a function here that looks up each member by its type, tests that there are no others (`width` counts `op`
//!   too) and makes the event; its branches in `kinds.rt` and [`event_as`];
//! - in `proofs/records/` an answer like that of `kqueue`, which says that each member is of its type, and one in
//!   `proofs/kinds/` for the branch there;
//! - for a member of a type that is new, a look-up in `lookup.rt`, what it says in `specs/Typed.antt`, and a lemma in
//!   `proofs/LookUps.antt`. A kind of more than `MOST_MEMBERS` members needs that number raised.
//!
//! That is enough for any kind. One of which traces have many records is worth a function in `usual_records.rt` too,
//! which picks the members where programs write them.

ghost use Rattle.std.specs.Prelude.{◌≡◌, IfSome, Some, Ok};
ghost use Rattle.serde_json.specs.Data.{Members, object};
ghost use Rattle.kq_model.specs.Reading.{event_of};
ghost use Rattle.kq_line.specs.Shows.{Shows};
ghost use Rattle.kq_line.specs.Typed.{IsRecord};

use crate::file_records::{file, note, open, seek, truncate};
use crate::found::Found;
use crate::kinds::kind_named;
use crate::signal_records::{clock, exec, sig, sigset};
use kq_model::{Event, RecordKind, Series};

fn proc(found: &Found) -> Option<Event>
    ensures { IfSome result (λ e. (ms : Members) → Shows found.now ms → IsRecord RecordKind.Proc ms e) }
{
    let pid = found.u32_at(b"pid")?;
    if found.width() != 2 {
        return None;
    }
    Some(Event::Proc { pid })
}

fn fork(found: &Found) -> Option<Event>
    ensures { IfSome result (λ e. (ms : Members) → Shows found.now ms → IsRecord RecordKind.Fork ms e) }
{
    let pid = found.u32_at(b"pid")?;
    let child = found.u32_at(b"child")?;
    if found.width() != 3 {
        return None;
    }
    Some(Event::Fork { pid, child })
}

fn exit(found: &Found) -> Option<Event>
    ensures { IfSome result (λ e. (ms : Members) → Shows found.now ms → IsRecord RecordKind.Exit ms e) }
{
    let pid = found.u32_at(b"pid")?;
    let status = found.u32_at(b"status")?;
    if found.width() != 3 {
        return None;
    }
    Some(Event::Exit { pid, status })
}

fn kqueue(found: &Found) -> Option<Event>
    ensures { IfSome result (λ e. (ms : Members) → Shows found.now ms → IsRecord RecordKind.Kqueue ms e) }
{
    let pid = found.u32_at(b"pid")?;
    let fd = found.u32_at(b"fd")?;
    if found.width() != 3 {
        return None;
    }
    Some(Event::Kqueue { pid, fd })
}

fn dup(found: &Found) -> Option<Event>
    ensures { IfSome result (λ e. (ms : Members) → Shows found.now ms → IsRecord RecordKind.Dup ms e) }
{
    let pid = found.u32_at(b"pid")?;
    let fd = found.u32_at(b"fd")?;
    let to = found.u32_at(b"to")?;
    if found.width() != 4 {
        return None;
    }
    Some(Event::Dup { pid, fd, to })
}

fn close(found: &Found) -> Option<Event>
    ensures { IfSome result (λ e. (ms : Members) → Shows found.now ms → IsRecord RecordKind.Close ms e) }
{
    let pid = found.u32_at(b"pid")?;
    let fd = found.u32_at(b"fd")?;
    if found.width() != 3 {
        return None;
    }
    Some(Event::Close { pid, fd })
}

fn socket(found: &Found) -> Option<Event>
    ensures { IfSome result (λ e. (ms : Members) → Shows found.now ms → IsRecord RecordKind.Socket ms e) }
{
    let pid = found.u32_at(b"pid")?;
    let fd = found.u32_at(b"fd")?;
    let rcv = found.u32_at(b"rcv")?;
    let snd = found.u32_at(b"snd")?;
    if found.width() != 5 {
        return None;
    }
    Some(Event::Socket { pid, fd, rcv, snd })
}

fn listen(found: &Found) -> Option<Event>
    ensures { IfSome result (λ e. (ms : Members) → Shows found.now ms → IsRecord RecordKind.Listen ms e) }
{
    let pid = found.u32_at(b"pid")?;
    let fd = found.u32_at(b"fd")?;
    let backlog = found.u32_at(b"backlog")?;
    if found.width() != 4 {
        return None;
    }
    Some(Event::Listen { pid, fd, backlog })
}

fn arrive(found: &Found) -> Option<Event>
    ensures { IfSome result (λ e. (ms : Members) → Shows found.now ms → IsRecord RecordKind.Arrive ms e) }
{
    let pid = found.u32_at(b"pid")?;
    let fd = found.u32_at(b"fd")?;
    if found.width() != 3 {
        return None;
    }
    Some(Event::Arrive { pid, fd })
}

fn accept(found: &Found) -> Option<Event>
    ensures { IfSome result (λ e. (ms : Members) → Shows found.now ms → IsRecord RecordKind.Accept ms e) }
{
    let pid = found.u32_at(b"pid")?;
    let fd = found.u32_at(b"fd")?;
    let to = found.u32_at(b"to")?;
    let rcv = found.u32_at(b"rcv")?;
    let snd = found.u32_at(b"snd")?;
    if found.width() != 6 {
        return None;
    }
    Some(Event::Accept {
        pid,
        fd,
        to,
        rcv,
        snd,
    })
}

fn connect(found: &Found) -> Option<Event>
    ensures { IfSome result (λ e. (ms : Members) → Shows found.now ms → IsRecord RecordKind.Connect ms e) }
{
    let pid = found.u32_at(b"pid")?;
    let fd = found.u32_at(b"fd")?;
    if found.width() != 3 {
        return None;
    }
    Some(Event::Connect { pid, fd })
}

fn rx(found: &Found) -> Option<Event>
    ensures { IfSome result (λ e. (ms : Members) → Shows found.now ms → IsRecord RecordKind.Rx ms e) }
{
    let pid = found.u32_at(b"pid")?;
    let fd = found.u32_at(b"fd")?;
    let n = found.u32_at(b"n")?;
    if found.width() != 4 {
        return None;
    }
    Some(Event::Rx { pid, fd, n })
}

fn tx(found: &Found) -> Option<Event>
    ensures { IfSome result (λ e. (ms : Members) → Shows found.now ms → IsRecord RecordKind.Tx ms e) }
{
    let pid = found.u32_at(b"pid")?;
    let fd = found.u32_at(b"fd")?;
    let n = found.u32_at(b"n")?;
    if found.width() != 4 {
        return None;
    }
    Some(Event::Tx { pid, fd, n })
}

fn shut(found: &Found) -> Option<Event>
    ensures { IfSome result (λ e. (ms : Members) → Shows found.now ms → IsRecord RecordKind.Shut ms e) }
{
    let pid = found.u32_at(b"pid")?;
    let fd = found.u32_at(b"fd")?;
    let side = found.side_at(b"side")?;
    let error = found.u32_at(b"error")?;
    if found.width() != 5 {
        return None;
    }
    Some(Event::Shut {
        pid,
        fd,
        side,
        error,
    })
}

fn lowat(found: &Found) -> Option<Event>
    ensures { IfSome result (λ e. (ms : Members) → Shows found.now ms → IsRecord RecordKind.Lowat ms e) }
{
    let pid = found.u32_at(b"pid")?;
    let fd = found.u32_at(b"fd")?;
    let side = found.side_at(b"side")?;
    let n = found.u32_at(b"n")?;
    if found.width() != 5 {
        return None;
    }
    Some(Event::Lowat { pid, fd, side, n })
}

fn pipe(found: &Found) -> Option<Event>
    ensures { IfSome result (λ e. (ms : Members) → Shows found.now ms → IsRecord RecordKind.Pipe ms e) }
{
    let pid = found.u32_at(b"pid")?;
    let rfd = found.u32_at(b"rfd")?;
    let wfd = found.u32_at(b"wfd")?;
    let cap = found.u32_at(b"cap")?;
    if found.width() != 5 {
        return None;
    }
    Some(Event::Pipe { pid, rfd, wfd, cap })
}

fn read(found: &Found) -> Option<Event>
    ensures { IfSome result (λ e. (ms : Members) → Shows found.now ms → IsRecord RecordKind.Read ms e) }
{
    let pid = found.u32_at(b"pid")?;
    let fd = found.u32_at(b"fd")?;
    let n = found.u32_at(b"n")?;
    if found.width() != 4 {
        return None;
    }
    Some(Event::Read { pid, fd, n })
}

fn write(found: &Found) -> Option<Event>
    ensures { IfSome result (λ e. (ms : Members) → Shows found.now ms → IsRecord RecordKind.Write ms e) }
{
    let pid = found.u32_at(b"pid")?;
    let fd = found.u32_at(b"fd")?;
    let n = found.u32_at(b"n")?;
    if found.width() != 4 {
        return None;
    }
    Some(Event::Write { pid, fd, n })
}

fn kevent(found: &Found) -> Option<Event>
    ensures { IfSome result (λ e. (ms : Members) → Shows found.now ms → IsRecord RecordKind.Kevent ms e) }
{
    let pid = found.u32_at(b"pid")?;
    let fd = found.u32_at(b"fd")?;
    let changes = found.changes_at(b"changes")?;
    let room = found.u32_at(b"room")?;
    if found.width() != 5 {
        return None;
    }
    Some(Event::Kevent {
        pid,
        fd,
        changes: Series::from_vec(changes),
        room,
    })
}

/// The record of this kind, where there are just its members.
fn event_as(found: &Found, kind: RecordKind) -> Option<Event>
    ensures { IfSome result (λ e. (ms : Members) → Shows found.now ms → IsRecord kind ms e) }
{
    match kind {
        RecordKind::Proc => proc(found),
        RecordKind::Fork => fork(found),
        RecordKind::Exit => exit(found),
        RecordKind::Kqueue => kqueue(found),
        RecordKind::Dup => dup(found),
        RecordKind::Close => close(found),
        RecordKind::Socket => socket(found),
        RecordKind::Listen => listen(found),
        RecordKind::Arrive => arrive(found),
        RecordKind::Accept => accept(found),
        RecordKind::Connect => connect(found),
        RecordKind::Rx => rx(found),
        RecordKind::Tx => tx(found),
        RecordKind::Shut => shut(found),
        RecordKind::Lowat => lowat(found),
        RecordKind::Pipe => pipe(found),
        RecordKind::Read => read(found),
        RecordKind::Write => write(found),
        RecordKind::Exec => exec(found),
        RecordKind::Sigset => sigset(found),
        RecordKind::Sig => sig(found),
        RecordKind::File => file(found),
        RecordKind::Open => open(found),
        RecordKind::Seek => seek(found),
        RecordKind::Truncate => truncate(found),
        RecordKind::Note => note(found),
        RecordKind::Clock => clock(found),
        RecordKind::Kevent => kevent(found),
    }
}

/// The record that has these members, and no further ones.
pub fn event_from(found: &Found) -> Option<Event>
    ensures { IfSome result (λ e. (ms : Members) → Shows found.now ms → event_of (Some (object ms)) ≡ Ok e) }
{
    let kind = kind_named(found.text_at(b"op")?)?;
    event_as(found, kind)
}
