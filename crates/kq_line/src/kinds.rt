//! The kinds of records, by their names.

ghost use Rattle.std.specs.Prelude.{◌≡◌, IfSome, Some};
ghost use Rattle.kq_model.specs.Kinds.{kind_named};

use crate::cursor::is;
use kq_model::RecordKind;

/// The kind of record of this name. The kinds of which a trace has most are asked for first.
pub fn kind_named(name: &[u8]) -> Option<RecordKind>
    ensures { IfSome result (λ kind. kind_named name.now ≡ Some kind) }
{
    if is(name, b"kevent") {
        Some(RecordKind::Kevent)
    } else if is(name, b"read") {
        Some(RecordKind::Read)
    } else if is(name, b"write") {
        Some(RecordKind::Write)
    } else if is(name, b"rx") {
        Some(RecordKind::Rx)
    } else if is(name, b"tx") {
        Some(RecordKind::Tx)
    } else if is(name, b"arrive") {
        Some(RecordKind::Arrive)
    } else if is(name, b"accept") {
        Some(RecordKind::Accept)
    } else if is(name, b"close") {
        Some(RecordKind::Close)
    } else {
        setting_kind_named(name)
    }
}

/// The kind of this name, of those that make and set up sockets and pipes, and of those below.
fn setting_kind_named(name: &[u8]) -> Option<RecordKind>
    ensures { IfSome result (λ kind. kind_named name.now ≡ Some kind) }
{
    if is(name, b"socket") {
        Some(RecordKind::Socket)
    } else if is(name, b"connect") {
        Some(RecordKind::Connect)
    } else if is(name, b"listen") {
        Some(RecordKind::Listen)
    } else if is(name, b"shut") {
        Some(RecordKind::Shut)
    } else if is(name, b"lowat") {
        Some(RecordKind::Lowat)
    } else if is(name, b"pipe") {
        Some(RecordKind::Pipe)
    } else if is(name, b"dup") {
        Some(RecordKind::Dup)
    } else {
        process_kind_named(name)
    }
}

/// The kind of this name, of those of processes and signals, and of those below.
fn process_kind_named(name: &[u8]) -> Option<RecordKind>
    ensures { IfSome result (λ kind. kind_named name.now ≡ Some kind) }
{
    if is(name, b"fork") {
        Some(RecordKind::Fork)
    } else if is(name, b"exit") {
        Some(RecordKind::Exit)
    } else if is(name, b"kqueue") {
        Some(RecordKind::Kqueue)
    } else if is(name, b"proc") {
        Some(RecordKind::Proc)
    } else if is(name, b"exec") {
        Some(RecordKind::Exec)
    } else if is(name, b"sigset") {
        Some(RecordKind::Sigset)
    } else if is(name, b"sig") {
        Some(RecordKind::Sig)
    } else {
        file_kind_named(name)
    }
}

/// The kind of this name, of those of files and of the clock.
fn file_kind_named(name: &[u8]) -> Option<RecordKind>
    ensures { IfSome result (λ kind. kind_named name.now ≡ Some kind) }
{
    if is(name, b"file") {
        Some(RecordKind::File)
    } else if is(name, b"open") {
        Some(RecordKind::Open)
    } else if is(name, b"seek") {
        Some(RecordKind::Seek)
    } else if is(name, b"truncate") {
        Some(RecordKind::Truncate)
    } else if is(name, b"note") {
        Some(RecordKind::Note)
    } else if is(name, b"clock") {
        Some(RecordKind::Clock)
    } else {
        None
    }
}
