//! Sides, modes and notes, by their names.

ghost use Rattle.std.specs.Prelude.{◌≡◌};
ghost use Rattle.serde_json.specs.View.{view};
ghost use Rattle.kq_model.specs.Names.{mode_named, note_named, side_named};
ghost use Rattle.kq_model.specs.RecordText.{mode_at, mode_in, note_at, note_in, side_at, side_in};

use kq_model::{Mode, Note, Side};
use serde_json::Value;

/// The side of this name.
#[tactic(auto, unfolding(kq_model::specs::Names::side_named))]
fn side_named(name: &str) -> Option<Side>
    ensures { result ≡ side_named name.now }
{
    match name {
        "read" => Some(Side::Read),
        "write" => Some(Side::Write),
        _ => None,
    }
}

/// The side that a value names.
#[tactic(auto, unfolding(kq_model::specs::RecordText::side_in))]
pub fn side_in(value: &Value) -> Option<Side>
    ensures { result ≡ side_in (view value.now) }
{
    match value.as_str() {
        Some(name) => side_named(name),
        None => None,
    }
}

/// The side that the member names.
#[tactic(auto, unfolding(kq_model::specs::RecordText::side_at))]
pub fn side_at(value: &Value, name: &str) -> Option<Side>
    ensures { result ≡ side_at name.now (view value.now) }
{
    match value.get(name) {
        Some(member) => side_in(member),
        None => None,
    }
}

/// The mode of this name.
#[tactic(auto, unfolding(kq_model::specs::Names::mode_named))]
fn mode_named(name: &str) -> Option<Mode>
    ensures { result ≡ mode_named name.now }
{
    match name {
        "r" => Some(Mode::Read),
        "w" => Some(Mode::Write),
        "rw" => Some(Mode::ReadWrite),
        _ => None,
    }
}

/// The mode that a value names.
#[tactic(auto, unfolding(kq_model::specs::RecordText::mode_in))]
pub fn mode_in(value: &Value) -> Option<Mode>
    ensures { result ≡ mode_in (view value.now) }
{
    match value.as_str() {
        Some(name) => mode_named(name),
        None => None,
    }
}

/// The mode that the member names.
#[tactic(auto, unfolding(kq_model::specs::RecordText::mode_at))]
pub fn mode_at(value: &Value, name: &str) -> Option<Mode>
    ensures { result ≡ mode_at name.now (view value.now) }
{
    match value.get(name) {
        Some(member) => mode_in(member),
        None => None,
    }
}

/// The note of this name.
#[tactic(auto, unfolding(kq_model::specs::Names::note_named))]
fn note_named(name: &str) -> Option<Note>
    ensures { result ≡ note_named name.now }
{
    match name {
        "attrib" => Some(Note::Attrib),
        "link" => Some(Note::Link),
        "rename" => Some(Note::Rename),
        "delete" => Some(Note::Delete),
        "revoke" => Some(Note::Revoke),
        _ => None,
    }
}

/// The note that a value names.
#[tactic(auto, unfolding(kq_model::specs::RecordText::note_in))]
pub fn note_in(value: &Value) -> Option<Note>
    ensures { result ≡ note_in (view value.now) }
{
    match value.as_str() {
        Some(name) => note_named(name),
        None => None,
    }
}

/// The note that the member names.
#[tactic(auto, unfolding(kq_model::specs::RecordText::note_at))]
pub fn note_at(value: &Value, name: &str) -> Option<Note>
    ensures { result ≡ note_at name.now (view value.now) }
{
    match value.get(name) {
        Some(member) => note_in(member),
        None => None,
    }
}
