//! The event that a record is, where its numbers are in range: one function for each kind.

ghost use Rattle.std.specs.Prelude.{◌≡◌, Some, IfOk, codes, option_and_then, option_map};
ghost use Rattle.serde_json.specs.View.{view};
ghost use Rattle.kq_model.specs.RecordText.{changes_at, event_as, with_pid_fd, with_u32};

use crate::changes::change_list;
use crate::member::{i64_at, moment_at, truth_at, two_at, u32_at};
use crate::names::{mode_at, note_at, side_at};
use kq_model::{Change, Event, Memory, RecordKind, Series};
use serde_json::Value;
use std::alloc::Global;

/// The list of changes of the member, where all their numbers are in range.
#[tactic(auto, unfolding(kq_model::specs::RecordText::changes_at))]
fn changes_at(alloc: Global, value: &Value, name: &str) -> Result<Option<Vec<Change>>, Memory>
    ensures { IfOk result
        (λ found. option_map (λ changes. changes.items) found ≡ changes_at name.now (view value.now)) }
{
    match value.get(name) {
        Some(member) => change_list(alloc, member),
        None => Ok(None),
    }
}

#[tactic(auto, unfolding(kq_model::specs::RecordText::event_as))]
fn proc(value: &Value) -> Option<Event>
    ensures { result ≡ event_as RecordKind.Proc (view value.now) }
{
    let pid = u32_at(value, "pid")?;
    Some(Event::Proc { pid })
}

#[tactic(auto, unfolding(kq_model::specs::RecordText::event_as))]
fn fork(value: &Value) -> Option<Event>
    ensures { result ≡ event_as RecordKind.Fork (view value.now) }
{
    let (pid, child) = two_at(value, "pid", "child")?;
    Some(Event::Fork { pid, child })
}

#[tactic(auto, unfolding(kq_model::specs::RecordText::event_as))]
fn exit(value: &Value) -> Option<Event>
    ensures { result ≡ event_as RecordKind.Exit (view value.now) }
{
    let pid = u32_at(value, "pid")?;
    let status = u32_at(value, "status")?;
    Some(Event::Exit { pid, status })
}

#[tactic(auto, unfolding(kq_model::specs::RecordText::event_as))]
fn kqueue(value: &Value) -> Option<Event>
    ensures { result ≡ event_as RecordKind.Kqueue (view value.now) }
{
    let (pid, fd) = two_at(value, "pid", "fd")?;
    Some(Event::Kqueue { pid, fd })
}

#[tactic(auto, unfolding(kq_model::specs::RecordText::event_as))]
fn dup(value: &Value) -> Option<Event>
    ensures { result ≡ event_as RecordKind.Dup (view value.now) }
{
    let (pid, fd) = two_at(value, "pid", "fd")?;
    let to = u32_at(value, "to")?;
    Some(Event::Dup { pid, fd, to })
}

#[tactic(auto, unfolding(kq_model::specs::RecordText::event_as))]
fn close(value: &Value) -> Option<Event>
    ensures { result ≡ event_as RecordKind.Close (view value.now) }
{
    let (pid, fd) = two_at(value, "pid", "fd")?;
    Some(Event::Close { pid, fd })
}

#[tactic(auto, unfolding(kq_model::specs::RecordText::event_as))]
fn socket(value: &Value) -> Option<Event>
    ensures { result ≡ event_as RecordKind.Socket (view value.now) }
{
    let (pid, fd) = two_at(value, "pid", "fd")?;
    let (rcv, snd) = two_at(value, "rcv", "snd")?;
    Some(Event::Socket { pid, fd, rcv, snd })
}

#[tactic(auto, unfolding(kq_model::specs::RecordText::event_as))]
fn listen(value: &Value) -> Option<Event>
    ensures { result ≡ event_as RecordKind.Listen (view value.now) }
{
    let (pid, fd) = two_at(value, "pid", "fd")?;
    let backlog = u32_at(value, "backlog")?;
    Some(Event::Listen { pid, fd, backlog })
}

#[tactic(auto, unfolding(kq_model::specs::RecordText::event_as))]
fn arrive(value: &Value) -> Option<Event>
    ensures { result ≡ event_as RecordKind.Arrive (view value.now) }
{
    let (pid, fd) = two_at(value, "pid", "fd")?;
    Some(Event::Arrive { pid, fd })
}

#[tactic(auto, unfolding(kq_model::specs::RecordText::event_as))]
fn accept(value: &Value) -> Option<Event>
    ensures { result ≡ event_as RecordKind.Accept (view value.now) }
{
    let (pid, fd) = two_at(value, "pid", "fd")?;
    let to = u32_at(value, "to")?;
    let (rcv, snd) = two_at(value, "rcv", "snd")?;
    Some(Event::Accept {
        pid,
        fd,
        to,
        rcv,
        snd,
    })
}

#[tactic(auto, unfolding(kq_model::specs::RecordText::event_as))]
fn connect(value: &Value) -> Option<Event>
    ensures { result ≡ event_as RecordKind.Connect (view value.now) }
{
    let (pid, fd) = two_at(value, "pid", "fd")?;
    Some(Event::Connect { pid, fd })
}

#[tactic(auto, unfolding(kq_model::specs::RecordText::event_as))]
fn rx(value: &Value) -> Option<Event>
    ensures { result ≡ event_as RecordKind.Rx (view value.now) }
{
    let (pid, fd) = two_at(value, "pid", "fd")?;
    let n = u32_at(value, "n")?;
    Some(Event::Rx { pid, fd, n })
}

#[tactic(auto, unfolding(kq_model::specs::RecordText::event_as))]
fn tx(value: &Value) -> Option<Event>
    ensures { result ≡ event_as RecordKind.Tx (view value.now) }
{
    let (pid, fd) = two_at(value, "pid", "fd")?;
    let n = u32_at(value, "n")?;
    Some(Event::Tx { pid, fd, n })
}

#[tactic(auto, unfolding(kq_model::specs::RecordText::event_as))]
fn shut(value: &Value) -> Option<Event>
    ensures { result ≡ event_as RecordKind.Shut (view value.now) }
{
    let (pid, fd) = two_at(value, "pid", "fd")?;
    let side = side_at(value, "side")?;
    let error = u32_at(value, "error")?;
    Some(Event::Shut {
        pid,
        fd,
        side,
        error,
    })
}

#[tactic(auto, unfolding(kq_model::specs::RecordText::event_as))]
fn lowat(value: &Value) -> Option<Event>
    ensures { result ≡ event_as RecordKind.Lowat (view value.now) }
{
    let (pid, fd) = two_at(value, "pid", "fd")?;
    let side = side_at(value, "side")?;
    let n = u32_at(value, "n")?;
    Some(Event::Lowat { pid, fd, side, n })
}

#[tactic(auto, unfolding(kq_model::specs::RecordText::event_as))]
fn pipe(value: &Value) -> Option<Event>
    ensures { result ≡ event_as RecordKind.Pipe (view value.now) }
{
    let (pid, rfd) = two_at(value, "pid", "rfd")?;
    let (wfd, cap) = two_at(value, "wfd", "cap")?;
    Some(Event::Pipe { pid, rfd, wfd, cap })
}

#[tactic(auto, unfolding(kq_model::specs::RecordText::event_as))]
fn read(value: &Value) -> Option<Event>
    ensures { result ≡ event_as RecordKind.Read (view value.now) }
{
    let (pid, fd) = two_at(value, "pid", "fd")?;
    let n = u32_at(value, "n")?;
    Some(Event::Read { pid, fd, n })
}

#[tactic(auto, unfolding(kq_model::specs::RecordText::event_as))]
fn write(value: &Value) -> Option<Event>
    ensures { result ≡ event_as RecordKind.Write (view value.now) }
{
    let (pid, fd) = two_at(value, "pid", "fd")?;
    let n = u32_at(value, "n")?;
    Some(Event::Write { pid, fd, n })
}

#[tactic(auto, unfolding(kq_model::specs::RecordText::event_as))]
fn exec(value: &Value) -> Option<Event>
    ensures { result ≡ event_as RecordKind.Exec (view value.now) }
{
    let pid = u32_at(value, "pid")?;
    Some(Event::Exec { pid })
}

#[tactic(auto, unfolding(kq_model::specs::RecordText::event_as))]
fn sigset(value: &Value) -> Option<Event>
    ensures { result ≡ event_as RecordKind.Sigset (view value.now) }
{
    let (pid, sig) = two_at(value, "pid", "sig")?;
    let ignore = truth_at(value, "ignore")?;
    Some(Event::Sigset { pid, sig, ignore })
}

#[tactic(auto, unfolding(kq_model::specs::RecordText::event_as))]
fn sig(value: &Value) -> Option<Event>
    ensures { result ≡ event_as RecordKind.Sig (view value.now) }
{
    let (pid, sig) = two_at(value, "pid", "sig")?;
    Some(Event::Sig { pid, sig })
}

#[tactic(auto, unfolding(kq_model::specs::RecordText::event_as))]
fn file(value: &Value) -> Option<Event>
    ensures { result ≡ event_as RecordKind.File (view value.now) }
{
    let file = u32_at(value, "file")?;
    let size = i64_at(value, "size")?;
    Some(Event::File { file, size })
}

#[tactic(auto, unfolding(kq_model::specs::RecordText::event_as))]
fn open(value: &Value) -> Option<Event>
    ensures { result ≡ event_as RecordKind.Open (view value.now) }
{
    let (pid, fd) = two_at(value, "pid", "fd")?;
    let file = u32_at(value, "file")?;
    let mode = mode_at(value, "mode")?;
    Some(Event::Open {
        pid,
        fd,
        file,
        mode,
    })
}

#[tactic(auto, unfolding(kq_model::specs::RecordText::event_as))]
fn seek(value: &Value) -> Option<Event>
    ensures { result ≡ event_as RecordKind.Seek (view value.now) }
{
    let (pid, fd) = two_at(value, "pid", "fd")?;
    let offset = i64_at(value, "offset")?;
    Some(Event::Seek { pid, fd, offset })
}

#[tactic(auto, unfolding(kq_model::specs::RecordText::event_as))]
fn truncate(value: &Value) -> Option<Event>
    ensures { result ≡ event_as RecordKind.Truncate (view value.now) }
{
    let file = u32_at(value, "file")?;
    let size = i64_at(value, "size")?;
    Some(Event::Truncate { file, size })
}

#[tactic(auto, unfolding(kq_model::specs::RecordText::event_as))]
fn note(value: &Value) -> Option<Event>
    ensures { result ≡ event_as RecordKind.Note (view value.now) }
{
    let file = u32_at(value, "file")?;
    let note = note_at(value, "note")?;
    Some(Event::Note { file, note })
}

#[tactic(auto, unfolding(kq_model::specs::RecordText::event_as))]
fn clock(value: &Value) -> Option<Event>
    ensures { result ≡ event_as RecordKind.Clock (view value.now) }
{
    let ns = moment_at(value, "ns")?;
    Some(Event::Clock { ns })
}

/// The call with these changes, where they and the numbers are in range.
fn with_changes(value: &Value, changes: Option<Vec<Change>>) -> Option<Event>
    ensures { result ≡ with_pid_fd (view value.now) (λ pid fd. with_u32 (codes "room") (view value.now)
        (λ room. option_and_then (λ changes. Some (Event.Kevent pid fd changes room))
        (option_map (λ changes. changes.items) changes))) }
{
    let (pid, fd) = two_at(value, "pid", "fd")?;
    let room = u32_at(value, "room")?;
    let changes = Series::from_vec(changes?);
    Some(Event::Kevent {
        pid,
        fd,
        changes,
        room,
    })
}

#[tactic(auto, unfolding(kq_model::specs::RecordText::event_as))]
fn kevent(alloc: Global, value: &Value) -> Result<Option<Event>, Memory>
    ensures { IfOk result (λ event. event ≡ event_as RecordKind.Kevent (view value.now)) }
{
    let changes = changes_at(alloc, value, "changes")?;
    Ok(with_changes(value, changes))
}

/// The record of this kind, where its numbers are in range.
pub fn event_as(alloc: Global, kind: RecordKind, value: &Value) -> Result<Option<Event>, Memory>
    ensures { IfOk result (λ event. event ≡ event_as kind (view value.now)) }
{
    match kind {
        RecordKind::Proc => Ok(proc(value)),
        RecordKind::Fork => Ok(fork(value)),
        RecordKind::Exit => Ok(exit(value)),
        RecordKind::Kqueue => Ok(kqueue(value)),
        RecordKind::Dup => Ok(dup(value)),
        RecordKind::Close => Ok(close(value)),
        RecordKind::Socket => Ok(socket(value)),
        RecordKind::Listen => Ok(listen(value)),
        RecordKind::Arrive => Ok(arrive(value)),
        RecordKind::Accept => Ok(accept(value)),
        RecordKind::Connect => Ok(connect(value)),
        RecordKind::Rx => Ok(rx(value)),
        RecordKind::Tx => Ok(tx(value)),
        RecordKind::Shut => Ok(shut(value)),
        RecordKind::Lowat => Ok(lowat(value)),
        RecordKind::Pipe => Ok(pipe(value)),
        RecordKind::Read => Ok(read(value)),
        RecordKind::Write => Ok(write(value)),
        RecordKind::Exec => Ok(exec(value)),
        RecordKind::Sigset => Ok(sigset(value)),
        RecordKind::Sig => Ok(sig(value)),
        RecordKind::File => Ok(file(value)),
        RecordKind::Open => Ok(open(value)),
        RecordKind::Seek => Ok(seek(value)),
        RecordKind::Truncate => Ok(truncate(value)),
        RecordKind::Note => Ok(note(value)),
        RecordKind::Clock => Ok(clock(value)),
        RecordKind::Kevent => kevent(alloc, value),
    }
}
