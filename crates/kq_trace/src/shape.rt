//! Which members a record has, and of which types they are.

ghost use Rattle.std.specs.Prelude.{◌≡◌, map};
ghost use Rattle.std.specs.List.{list_all};
ghost use Rattle.serde_json.specs.Find.{get};
ghost use Rattle.serde_json.specs.View.{view};
ghost use Rattle.kq_model.specs.Kinds.{kind_among, kind_name, kind_named, members_besides_op};
ghost use Rattle.kq_model.specs.Members.{required};
ghost use Rattle.kq_model.specs.RecordText.{is_of, is_record};

use crate::changes::is_change_list;
use crate::member::{is_whole, width};
use crate::names::{mode_in, note_in, side_in};
use kq_model::MemberType::{self, ChangeList, ModeName, NoteName, SideName, Truth, Whole};
use kq_model::RecordKind;
use serde_json::Value;

/// The name that a trace has for this kind of record.
fn kind_name(kind: RecordKind) -> &'static str
    ensures { result.now ≡ kind_name kind }
{
    match kind {
        RecordKind::Proc => "proc",
        RecordKind::Fork => "fork",
        RecordKind::Exit => "exit",
        RecordKind::Kqueue => "kqueue",
        RecordKind::Dup => "dup",
        RecordKind::Close => "close",
        RecordKind::Socket => "socket",
        RecordKind::Listen => "listen",
        RecordKind::Arrive => "arrive",
        RecordKind::Accept => "accept",
        RecordKind::Connect => "connect",
        RecordKind::Rx => "rx",
        RecordKind::Tx => "tx",
        RecordKind::Shut => "shut",
        RecordKind::Lowat => "lowat",
        RecordKind::Pipe => "pipe",
        RecordKind::Read => "read",
        RecordKind::Write => "write",
        RecordKind::Exec => "exec",
        RecordKind::Sigset => "sigset",
        RecordKind::Sig => "sig",
        RecordKind::File => "file",
        RecordKind::Open => "open",
        RecordKind::Seek => "seek",
        RecordKind::Truncate => "truncate",
        RecordKind::Note => "note",
        RecordKind::Clock => "clock",
        RecordKind::Kevent => "kevent",
    }
}

/// The kind of this name among these.
#[tactic(auto, unfolding(kq_model::specs::Kinds::kind_among))]
fn kind_among(kinds: &[RecordKind], name: &str) -> Option<RecordKind>
    ensures { result ≡ kind_among kinds.now name.now }
{
    for kind in kinds {
        if name == kind_name(*kind) {
            return Some(*kind);
        }
    }
    None
}

/// The kind of record of this name.
#[tactic(auto, unfolding(kq_model::specs::Kinds::kind_named))]
pub fn kind_named(name: &str) -> Option<RecordKind>
    ensures { result ≡ kind_named name.now }
{
    let kinds = [
        RecordKind::Proc,
        RecordKind::Fork,
        RecordKind::Exit,
        RecordKind::Kqueue,
        RecordKind::Dup,
        RecordKind::Close,
        RecordKind::Socket,
        RecordKind::Listen,
        RecordKind::Arrive,
        RecordKind::Accept,
        RecordKind::Connect,
        RecordKind::Rx,
        RecordKind::Tx,
        RecordKind::Shut,
        RecordKind::Lowat,
        RecordKind::Pipe,
        RecordKind::Read,
        RecordKind::Write,
        RecordKind::Exec,
        RecordKind::Sigset,
        RecordKind::Sig,
        RecordKind::File,
        RecordKind::Open,
        RecordKind::Seek,
        RecordKind::Truncate,
        RecordKind::Note,
        RecordKind::Clock,
        RecordKind::Kevent,
    ];
    kind_among(&kinds, name)
}

/// Whether a value is of this type, whatever the range of its numbers.
#[tactic(auto, unfolding(kq_model::specs::RecordText::is_of))]
fn is_of(member_type: MemberType, value: &Value) -> bool
    ensures { result ≡ is_of member_type (view value.now) }
{
    match member_type {
        Whole => is_whole(value),
        Truth => value.is_boolean(),
        SideName => side_in(value).is_some(),
        ModeName => mode_in(value).is_some(),
        NoteName => note_in(value).is_some(),
        ChangeList => is_change_list(value),
    }
}

/// Whether a value has this member, and it is of this type.
#[tactic(auto, unfolding(kq_model::specs::Members::required))]
fn has(value: &Value, name: &str, member_type: MemberType) -> bool
    ensures { result ≡ required (is_of member_type) (get name.now (view value.now)) }
{
    match value.get(name) {
        Some(member) => is_of(member_type, member),
        None => false,
    }
}

/// Whether a value has each of these members.
fn has_each(value: &Value, members: &[(&str, MemberType)]) -> bool
    ensures { result ≡ list_all (λ m. required (is_of m.1) (get m.0.now (view value.now))) members.now }
{
    members.iter().all(|member| has(value, member.0, member.1))
}

/// Whether a value has each of these members, and beside `op` no further one.
fn is_record(value: &Value, members: &[(&str, MemberType)]) -> bool
    ensures { result ≡ is_record (map (λ m. (m.0.now, m.1)) members.now) (view value.now) }
{
    has_each(value, members) && width(value) == members.len() + 1
}

/// Whether a value has just the members of a record of this kind, whatever the range of its numbers.
pub fn is_of_kind(value: &Value, kind: RecordKind) -> bool
    ensures { result ≡ is_record (members_besides_op kind) (view value.now) }
{
    match kind {
        RecordKind::Proc => is_record(value, &[("pid", Whole)]),
        RecordKind::Fork => is_record(value, &[("pid", Whole), ("child", Whole)]),
        RecordKind::Exit => is_record(value, &[("pid", Whole), ("status", Whole)]),
        RecordKind::Kqueue => is_record(value, &[("pid", Whole), ("fd", Whole)]),
        RecordKind::Dup => is_record(value, &[("pid", Whole), ("fd", Whole), ("to", Whole)]),
        RecordKind::Close => is_record(value, &[("pid", Whole), ("fd", Whole)]),
        RecordKind::Socket => is_record(
            value,
            &[
                ("pid", Whole),
                ("fd", Whole),
                ("rcv", Whole),
                ("snd", Whole),
            ],
        ),
        RecordKind::Listen => is_record(
            value,
            &[("pid", Whole), ("fd", Whole), ("backlog", Whole)],
        ),
        RecordKind::Arrive => is_record(value, &[("pid", Whole), ("fd", Whole)]),
        RecordKind::Accept => is_record(
            value,
            &[
                ("pid", Whole),
                ("fd", Whole),
                ("to", Whole),
                ("rcv", Whole),
                ("snd", Whole),
            ],
        ),
        RecordKind::Connect => is_record(value, &[("pid", Whole), ("fd", Whole)]),
        RecordKind::Rx => is_record(value, &[("pid", Whole), ("fd", Whole), ("n", Whole)]),
        RecordKind::Tx => is_record(value, &[("pid", Whole), ("fd", Whole), ("n", Whole)]),
        RecordKind::Shut => is_record(
            value,
            &[
                ("pid", Whole),
                ("fd", Whole),
                ("side", SideName),
                ("error", Whole),
            ],
        ),
        RecordKind::Lowat => is_record(
            value,
            &[
                ("pid", Whole),
                ("fd", Whole),
                ("side", SideName),
                ("n", Whole),
            ],
        ),
        RecordKind::Pipe => is_record(
            value,
            &[
                ("pid", Whole),
                ("rfd", Whole),
                ("wfd", Whole),
                ("cap", Whole),
            ],
        ),
        RecordKind::Read => is_record(value, &[("pid", Whole), ("fd", Whole), ("n", Whole)]),
        RecordKind::Write => is_record(value, &[("pid", Whole), ("fd", Whole), ("n", Whole)]),
        RecordKind::Exec => is_record(value, &[("pid", Whole)]),
        RecordKind::Sigset => is_record(
            value,
            &[("pid", Whole), ("sig", Whole), ("ignore", Truth)],
        ),
        RecordKind::Sig => is_record(value, &[("pid", Whole), ("sig", Whole)]),
        RecordKind::File => is_record(value, &[("file", Whole), ("size", Whole)]),
        RecordKind::Open => is_record(
            value,
            &[
                ("pid", Whole),
                ("fd", Whole),
                ("file", Whole),
                ("mode", ModeName),
            ],
        ),
        RecordKind::Seek => is_record(value, &[("pid", Whole), ("fd", Whole), ("offset", Whole)]),
        RecordKind::Truncate => is_record(value, &[("file", Whole), ("size", Whole)]),
        RecordKind::Note => is_record(value, &[("file", Whole), ("note", NoteName)]),
        RecordKind::Clock => is_record(value, &[("ns", Whole)]),
        RecordKind::Kevent => is_record(
            value,
            &[
                ("pid", Whole),
                ("fd", Whole),
                ("changes", ChangeList),
                ("room", Whole),
            ],
        ),
    }
}
