//! A record: an object whose member `op` names its kind, and with the members of this kind.

ghost use Rattle.std.specs.Prelude.{◌≡◌, Some, true, IfOk};
ghost use Rattle.serde_json.specs.View.{view};
ghost use Rattle.kq_model.specs.Members.{shaped};
ghost use Rattle.kq_model.specs.Reading.{event_by, event_of};
ghost use Rattle.kq_model.specs.RecordText.{read_as};

use crate::event::event_as;
use crate::shape::{is_of_kind, kind_named};
use kq_model::{Event, LineFault, Memory, RecordKind};
use serde_json::Value;
use std::alloc::Global;

/// An event of which some number may be out of range.
#[tactic(auto, unfolding(kq_model::specs::Members::shaped))]
fn in_range(event: Option<Event>) -> Result<Event, LineFault>
    ensures { result ≡ shaped true event }
{
    match event {
        Some(event) => Ok(event),
        None => Err(LineFault::Range),
    }
}

/// The record of this kind, or its fault: Field where its members are not just those of the kind, each of its
/// type, else Range where a number is outside its type.
#[tactic(auto, unfolding(kq_model::specs::RecordText::read_as, kq_model::specs::Members::shaped))]
fn read_as(
    alloc: Global,
    kind: RecordKind,
    value: &Value,
) -> Result<Result<Event, LineFault>, Memory>
    ensures { IfOk result (λ event. event ≡ read_as (Some kind) (view value.now)) }
{
    if is_of_kind(value, kind) {
        Ok(in_range(event_as(alloc, kind, value)?))
    } else {
        Ok(Err(LineFault::Field))
    }
}

/// The record of the kind of this name, or its fault.
#[tactic(auto, unfolding(kq_model::specs::Reading::event_by, kq_model::specs::RecordText::read_as))]
fn event_by(alloc: Global, op: &str, value: &Value) -> Result<Result<Event, LineFault>, Memory>
    ensures { IfOk result (λ event. event ≡ event_by (Some op.now) (view value.now)) }
{
    match kind_named(op) {
        Some(kind) => read_as(alloc, kind, value),
        None => Ok(Err(LineFault::Field)),
    }
}

/// The record that a value is, or its fault: Field where it is no object with the members of one kind, each of
/// its type, else Range where a number is outside its type.
#[tactic(auto, unfolding(kq_model::specs::Reading::event_of, kq_model::specs::Reading::event_by))]
pub fn event_of(alloc: Global, value: &Value) -> Result<Result<Event, LineFault>, Memory>
    ensures { IfOk result (λ event. event ≡ event_of (Some (view value.now))) }
{
    match value.get("op").and_then(Value::as_str) {
        Some(op) => event_by(alloc, op, value),
        None => Ok(Err(LineFault::Field)),
    }
}
