//! A record on its line: its members in the order of their names' bytes.

ghost use Rattle.std.specs.Prelude.{◌≡◌, true, OnOk};
ghost use Rattle.serde_json.specs.Data.{object};
ghost use Rattle.kq_model.specs.Spelling.{line_text, members_data, record_data};
ghost use Rattle.kq_text.specs.Adds.{Adds};
ghost use Rattle.kq_spell.specs.Again.{FitMembers, FitsRecord};
ghost use Rattle.kq_spell.specs.Subjects.{is_of_descriptor, is_of_file, is_of_process};
ghost use Rattle.kq_spell.specs.Texts.{amount_members, is_word, plain_members};

use crate::members::Spelled::{Changes, Integer, Name, Number, Truth};
use crate::members::put_line;
use kq_model::{Event, Memory};

/// Adds the line of a record.
pub fn put_record(out: &mut Vec<u8>, event: &Event) -> Result<(), Memory>
    ensures text { OnOk result (Adds out.old.items (line_text (record_data event.now)) out.new.items) }
    ensures fits { OnOk result (FitsRecord event.now) }
{
    match event {
        Event::Dup { .. }
        | Event::Close { .. }
        | Event::Socket { .. }
        | Event::Listen { .. }
        | Event::Arrive { .. }
        | Event::Accept { .. }
        | Event::Connect { .. }
        | Event::Rx { .. }
        | Event::Tx { .. }
        | Event::Shut { .. }
        | Event::Lowat { .. } => put_descriptor_record(out, event),
        Event::Pipe { .. }
        | Event::Read { .. }
        | Event::Write { .. }
        | Event::File { .. }
        | Event::Open { .. }
        | Event::Seek { .. }
        | Event::Truncate { .. }
        | Event::Note { .. } => put_file_record(out, event),
        Event::Proc { .. }
        | Event::Fork { .. }
        | Event::Exit { .. }
        | Event::Exec { .. }
        | Event::Sigset { .. }
        | Event::Sig { .. }
        | Event::Clock { .. }
        | Event::Kqueue { .. }
        | Event::Kevent { .. } => put_process_record(out, event),
    }
}

/// Adds the line of a record of a descriptor that has no further members.
fn put_plain(out: &mut Vec<u8>, op: &str, pid: u32, fd: u32) -> Result<(), Memory>
    requires { is_word op.now ≡ true }
    ensures text { OnOk result
        (Adds out.old.items (line_text (object (members_data (plain_members op.now pid fd)))) out.new.items) }
    ensures fits { OnOk result (FitMembers (plain_members op.now pid fd)) }
{
    put_line(
        out,
        &[("fd", Number(fd)), ("op", Name(op)), ("pid", Number(pid))],
    )
}

/// Adds the line of a record of so many bytes at a descriptor.
fn put_amount(out: &mut Vec<u8>, op: &str, pid: u32, fd: u32, n: u32) -> Result<(), Memory>
    requires { is_word op.now ≡ true }
    ensures text { OnOk result
        (Adds out.old.items (line_text (object (members_data (amount_members op.now pid fd n)))) out.new.items) }
    ensures fits { OnOk result (FitMembers (amount_members op.now pid fd n)) }
{
    put_line(
        out,
        &[
            ("fd", Number(fd)),
            ("n", Number(n)),
            ("op", Name(op)),
            ("pid", Number(pid)),
        ],
    )
}

/// Adds the line of a record of a process, its signals or its kqueues, or of the clock.
#[tactic(auto, unfolding(crate::proofs::Unfolded::spelling))]
fn put_process_record(out: &mut Vec<u8>, event: &Event) -> Result<(), Memory>
    requires { is_of_process event.now ≡ true }
    ensures text { OnOk result (Adds out.old.items (line_text (record_data event.now)) out.new.items) }
    ensures fits { OnOk result (FitsRecord event.now) }
{
    match event {
        Event::Proc { pid } => put_line(out, &[("op", Name("proc")), ("pid", Number(*pid))]),
        Event::Fork { pid, child } => put_line(
            out,
            &[
                ("child", Number(*child)),
                ("op", Name("fork")),
                ("pid", Number(*pid)),
            ],
        ),
        Event::Exit { pid, status } => put_line(
            out,
            &[
                ("op", Name("exit")),
                ("pid", Number(*pid)),
                ("status", Number(*status)),
            ],
        ),
        Event::Exec { pid } => put_line(out, &[("op", Name("exec")), ("pid", Number(*pid))]),
        Event::Sigset { pid, sig, ignore } => put_line(
            out,
            &[
                ("ignore", Truth(*ignore)),
                ("op", Name("sigset")),
                ("pid", Number(*pid)),
                ("sig", Number(*sig)),
            ],
        ),
        Event::Sig { pid, sig } => put_line(
            out,
            &[
                ("op", Name("sig")),
                ("pid", Number(*pid)),
                ("sig", Number(*sig)),
            ],
        ),
        Event::Clock { ns } => put_line(out, &[("ns", Integer(*ns)), ("op", Name("clock"))]),
        Event::Kqueue { pid, fd } => put_plain(out, "kqueue", *pid, *fd),
        Event::Kevent {
            pid,
            fd,
            changes,
            room,
        } => put_line(
            out,
            &[
                ("changes", Changes(changes.as_slice())),
                ("fd", Number(*fd)),
                ("op", Name("kevent")),
                ("pid", Number(*pid)),
                ("room", Number(*room)),
            ],
        ),
        _ => unreachable!(),
    }
}

/// Adds the line of a record of a descriptor or a socket.
#[tactic(auto, unfolding(crate::proofs::Unfolded::spelling))]
fn put_descriptor_record(out: &mut Vec<u8>, event: &Event) -> Result<(), Memory>
    requires { is_of_descriptor event.now ≡ true }
    ensures text { OnOk result (Adds out.old.items (line_text (record_data event.now)) out.new.items) }
    ensures fits { OnOk result (FitsRecord event.now) }
{
    match event {
        Event::Dup { pid, fd, to } => put_line(
            out,
            &[
                ("fd", Number(*fd)),
                ("op", Name("dup")),
                ("pid", Number(*pid)),
                ("to", Number(*to)),
            ],
        ),
        Event::Close { pid, fd } => put_plain(out, "close", *pid, *fd),
        Event::Socket { pid, fd, rcv, snd } => put_line(
            out,
            &[
                ("fd", Number(*fd)),
                ("op", Name("socket")),
                ("pid", Number(*pid)),
                ("rcv", Number(*rcv)),
                ("snd", Number(*snd)),
            ],
        ),
        Event::Listen { pid, fd, backlog } => put_line(
            out,
            &[
                ("backlog", Number(*backlog)),
                ("fd", Number(*fd)),
                ("op", Name("listen")),
                ("pid", Number(*pid)),
            ],
        ),
        Event::Arrive { pid, fd } => put_plain(out, "arrive", *pid, *fd),
        Event::Accept {
            pid,
            fd,
            to,
            rcv,
            snd,
        } => put_line(
            out,
            &[
                ("fd", Number(*fd)),
                ("op", Name("accept")),
                ("pid", Number(*pid)),
                ("rcv", Number(*rcv)),
                ("snd", Number(*snd)),
                ("to", Number(*to)),
            ],
        ),
        Event::Connect { pid, fd } => put_plain(out, "connect", *pid, *fd),
        Event::Rx { pid, fd, n } => put_amount(out, "rx", *pid, *fd, *n),
        Event::Tx { pid, fd, n } => put_amount(out, "tx", *pid, *fd, *n),
        Event::Shut {
            pid,
            fd,
            side,
            error,
        } => put_line(
            out,
            &[
                ("error", Number(*error)),
                ("fd", Number(*fd)),
                ("op", Name("shut")),
                ("pid", Number(*pid)),
                ("side", Name(side.name())),
            ],
        ),
        Event::Lowat { pid, fd, side, n } => put_line(
            out,
            &[
                ("fd", Number(*fd)),
                ("n", Number(*n)),
                ("op", Name("lowat")),
                ("pid", Number(*pid)),
                ("side", Name(side.name())),
            ],
        ),
        _ => unreachable!(),
    }
}

/// Adds the line of a record of a pipe or a file.
#[tactic(auto, unfolding(crate::proofs::Unfolded::spelling))]
fn put_file_record(out: &mut Vec<u8>, event: &Event) -> Result<(), Memory>
    requires { is_of_file event.now ≡ true }
    ensures text { OnOk result (Adds out.old.items (line_text (record_data event.now)) out.new.items) }
    ensures fits { OnOk result (FitsRecord event.now) }
{
    match event {
        Event::Pipe { pid, rfd, wfd, cap } => put_line(
            out,
            &[
                ("cap", Number(*cap)),
                ("op", Name("pipe")),
                ("pid", Number(*pid)),
                ("rfd", Number(*rfd)),
                ("wfd", Number(*wfd)),
            ],
        ),
        Event::Read { pid, fd, n } => put_amount(out, "read", *pid, *fd, *n),
        Event::Write { pid, fd, n } => put_amount(out, "write", *pid, *fd, *n),
        Event::File { file, size } => put_line(
            out,
            &[
                ("file", Number(*file)),
                ("op", Name("file")),
                ("size", Integer(*size)),
            ],
        ),
        Event::Open {
            pid,
            fd,
            file,
            mode,
        } => put_line(
            out,
            &[
                ("fd", Number(*fd)),
                ("file", Number(*file)),
                ("mode", Name(mode.name())),
                ("op", Name("open")),
                ("pid", Number(*pid)),
            ],
        ),
        Event::Seek { pid, fd, offset } => put_line(
            out,
            &[
                ("fd", Number(*fd)),
                ("offset", Integer(*offset)),
                ("op", Name("seek")),
                ("pid", Number(*pid)),
            ],
        ),
        Event::Truncate { file, size } => put_line(
            out,
            &[
                ("file", Number(*file)),
                ("op", Name("truncate")),
                ("size", Integer(*size)),
            ],
        ),
        Event::Note { file, note } => put_line(
            out,
            &[
                ("file", Number(*file)),
                ("note", Name(note.name())),
                ("op", Name("note")),
            ],
        ),
        _ => unreachable!(),
    }
}
