//! The records of each kind, from where their members differ, in the order in which programs write those.

ghost use Rattle.std.specs.Prelude.{IfSome};
ghost use Rattle.kq_line.specs.Usual.{IsEventFrom, with_op, with_pid};

use crate::lookup::{mode_named, note_named};
use crate::usual_members::{ends, next_i64, next_moment, next_name, next_u32};
use kq_model::{Event, RecordKind};

/// Bytes that move.
#[inline(always)]
fn of_bytes(kind: RecordKind, pid: u32, text: &[u8]) -> Option<Event>
    ensures { IfSome result (IsEventFrom kind (with_pid pid) text.now) }
{
    let (fd, rest) = next_u32(text, b"fd")?;
    let (n, rest) = next_u32(rest, b"n")?;
    ends(rest)?;
    match kind {
        RecordKind::Rx => Some(Event::Rx { pid, fd, n }),
        RecordKind::Tx => Some(Event::Tx { pid, fd, n }),
        RecordKind::Read => Some(Event::Read { pid, fd, n }),
        RecordKind::Write => Some(Event::Write { pid, fd, n }),
        _ => None,
    }
}

/// A descriptor alone.
#[inline(always)]
fn of_place(kind: RecordKind, pid: u32, text: &[u8]) -> Option<Event>
    ensures { IfSome result (IsEventFrom kind (with_pid pid) text.now) }
{
    let (fd, rest) = next_u32(text, b"fd")?;
    ends(rest)?;
    match kind {
        RecordKind::Close => Some(Event::Close { pid, fd }),
        RecordKind::Arrive => Some(Event::Arrive { pid, fd }),
        RecordKind::Connect => Some(Event::Connect { pid, fd }),
        RecordKind::Kqueue => Some(Event::Kqueue { pid, fd }),
        _ => None,
    }
}

#[inline(always)]
fn dup(pid: u32, text: &[u8]) -> Option<Event>
    ensures { IfSome result (IsEventFrom RecordKind.Dup (with_pid pid) text.now) }
{
    let (fd, rest) = next_u32(text, b"fd")?;
    let (to, rest) = next_u32(rest, b"to")?;
    ends(rest)?;
    Some(Event::Dup { pid, fd, to })
}

#[inline(always)]
fn accept(pid: u32, text: &[u8]) -> Option<Event>
    ensures { IfSome result (IsEventFrom RecordKind.Accept (with_pid pid) text.now) }
{
    let (fd, rest) = next_u32(text, b"fd")?;
    let (to, rest) = next_u32(rest, b"to")?;
    let (rcv, rest) = next_u32(rest, b"rcv")?;
    let (snd, rest) = next_u32(rest, b"snd")?;
    ends(rest)?;
    Some(Event::Accept {
        pid,
        fd,
        to,
        rcv,
        snd,
    })
}

#[inline(always)]
fn socket(pid: u32, text: &[u8]) -> Option<Event>
    ensures { IfSome result (IsEventFrom RecordKind.Socket (with_pid pid) text.now) }
{
    let (fd, rest) = next_u32(text, b"fd")?;
    let (rcv, rest) = next_u32(rest, b"rcv")?;
    let (snd, rest) = next_u32(rest, b"snd")?;
    ends(rest)?;
    Some(Event::Socket { pid, fd, rcv, snd })
}

#[inline(always)]
fn pipe(pid: u32, text: &[u8]) -> Option<Event>
    ensures { IfSome result (IsEventFrom RecordKind.Pipe (with_pid pid) text.now) }
{
    let (rfd, rest) = next_u32(text, b"rfd")?;
    let (wfd, rest) = next_u32(rest, b"wfd")?;
    let (cap, rest) = next_u32(rest, b"cap")?;
    ends(rest)?;
    Some(Event::Pipe { pid, rfd, wfd, cap })
}

#[inline(always)]
fn seek(pid: u32, text: &[u8]) -> Option<Event>
    ensures { IfSome result (IsEventFrom RecordKind.Seek (with_pid pid) text.now) }
{
    let (fd, rest) = next_u32(text, b"fd")?;
    let (offset, rest) = next_i64(rest, b"offset")?;
    ends(rest)?;
    Some(Event::Seek { pid, fd, offset })
}

#[inline(always)]
fn open(pid: u32, text: &[u8]) -> Option<Event>
    ensures { IfSome result (IsEventFrom RecordKind.Open (with_pid pid) text.now) }
{
    let (fd, rest) = next_u32(text, b"fd")?;
    let (file, rest) = next_u32(rest, b"file")?;
    let (name, rest) = next_name(rest, b"mode")?;
    let mode = mode_named(name)?;
    ends(rest)?;
    Some(Event::Open {
        pid,
        fd,
        file,
        mode,
    })
}

/// A process alone.
#[inline(always)]
fn alone(kind: RecordKind, pid: u32, text: &[u8]) -> Option<Event>
    ensures { IfSome result (IsEventFrom kind (with_pid pid) text.now) }
{
    ends(text)?;
    match kind {
        RecordKind::Proc => Some(Event::Proc { pid }),
        RecordKind::Exec => Some(Event::Exec { pid }),
        _ => None,
    }
}

#[inline(always)]
fn fork(pid: u32, text: &[u8]) -> Option<Event>
    ensures { IfSome result (IsEventFrom RecordKind.Fork (with_pid pid) text.now) }
{
    let (child, rest) = next_u32(text, b"child")?;
    ends(rest)?;
    Some(Event::Fork { pid, child })
}

#[inline(always)]
fn exit(pid: u32, text: &[u8]) -> Option<Event>
    ensures { IfSome result (IsEventFrom RecordKind.Exit (with_pid pid) text.now) }
{
    let (status, rest) = next_u32(text, b"status")?;
    ends(rest)?;
    Some(Event::Exit { pid, status })
}

#[inline(always)]
fn sig(pid: u32, text: &[u8]) -> Option<Event>
    ensures { IfSome result (IsEventFrom RecordKind.Sig (with_pid pid) text.now) }
{
    let (sig, rest) = next_u32(text, b"sig")?;
    ends(rest)?;
    Some(Event::Sig { pid, sig })
}

#[inline(always)]
pub fn file(text: &[u8]) -> Option<Event>
    ensures { IfSome result (IsEventFrom RecordKind.File with_op text.now) }
{
    let (file, rest) = next_u32(text, b"file")?;
    let (size, rest) = next_i64(rest, b"size")?;
    ends(rest)?;
    Some(Event::File { file, size })
}

#[inline(always)]
pub fn truncate(text: &[u8]) -> Option<Event>
    ensures { IfSome result (IsEventFrom RecordKind.Truncate with_op text.now) }
{
    let (file, rest) = next_u32(text, b"file")?;
    let (size, rest) = next_i64(rest, b"size")?;
    ends(rest)?;
    Some(Event::Truncate { file, size })
}

#[inline(always)]
pub fn note(text: &[u8]) -> Option<Event>
    ensures { IfSome result (IsEventFrom RecordKind.Note with_op text.now) }
{
    let (file, rest) = next_u32(text, b"file")?;
    let (name, rest) = next_name(rest, b"note")?;
    let note = note_named(name)?;
    ends(rest)?;
    Some(Event::Note { file, note })
}

#[inline(always)]
pub fn clock(text: &[u8]) -> Option<Event>
    ensures { IfSome result (IsEventFrom RecordKind.Clock with_op text.now) }
{
    let (ns, rest) = next_moment(text, b"ns")?;
    ends(rest)?;
    Some(Event::Clock { ns })
}

/// A record of a process and no descriptor, from behind its `pid`.
#[inline(always)]
pub fn of_process(kind: RecordKind, pid: u32, text: &[u8]) -> Option<Event>
    ensures { IfSome result (IsEventFrom kind (with_pid pid) text.now) }
{
    match kind {
        RecordKind::Sig => sig(pid, text),
        RecordKind::Fork => fork(pid, text),
        RecordKind::Exit => exit(pid, text),
        _ => alone(kind, pid, text),
    }
}

/// A record of a descriptor, from behind its `pid`.
#[inline(always)]
pub fn of_descriptor(kind: RecordKind, pid: u32, text: &[u8]) -> Option<Event>
    ensures { IfSome result (IsEventFrom kind (with_pid pid) text.now) }
{
    match kind {
        RecordKind::Rx | RecordKind::Tx | RecordKind::Read | RecordKind::Write => {
            of_bytes(kind, pid, text)
        }
        RecordKind::Dup => dup(pid, text),
        RecordKind::Accept => accept(pid, text),
        RecordKind::Socket => socket(pid, text),
        RecordKind::Pipe => pipe(pid, text),
        RecordKind::Seek => seek(pid, text),
        RecordKind::Open => open(pid, text),
        _ => of_place(kind, pid, text),
    }
}
