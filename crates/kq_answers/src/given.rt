//! What was answered, by the member that says it.

ghost use Rattle.std.specs.Prelude.{◌≡◌, IfOk, codes, map, option_and_then, option_map};
ghost use Rattle.serde_json.specs.Find.{as_str, get};
ghost use Rattle.serde_json.specs.View.{view};
ghost use Rattle.kq_answers.specs.AnswerText.{failed_in, given_in, impossible_in, kevent_of, returned_in, why_named};

use crate::answer::Given;
use kq_model::{Change, Kevent, LineFault, Memory, Series, Why};
use kq_trace::{change_list, is_change_list, is_whole, u32_in};
use serde_json::Value;
use std::alloc::Global;

/// What was answered, or the fault of the member that says it: Field where none does.
#[tactic(auto, unfolding(crate::specs::AnswerText::given_in, crate::specs::AnswerText::given_by))]
pub fn given_in(alloc: Global, value: &Value) -> Result<Result<Given, LineFault>, Memory>
    ensures { IfOk result (λ given. given ≡ given_in (view value.now)) }
{
    if let Some(events) = value.get("events") {
        return returned_in(alloc, events);
    }
    if let Some(error) = value.get("failed") {
        return Ok(failed_in(error));
    }
    match value.get("impossible") {
        Some(reason) => Ok(impossible_in(reason)),
        None => Ok(Err(LineFault::Field)),
    }
}

/// The events of a list, each spelled as a change is.
#[tactic(auto, unfolding(crate::specs::AnswerText::returned_in, kq_model::specs::Members::shaped))]
fn returned_in(alloc: Global, value: &Value) -> Result<Result<Given, LineFault>, Memory>
    ensures { IfOk result (λ given. given ≡ returned_in (view value.now)) }
{
    if !is_change_list(value) {
        return Ok(Err(LineFault::Field));
    }
    match change_list(alloc, value)? {
        Some(changes) => {
            let events = kevents_of(alloc, &changes)?;
            Ok(Ok(Given::Events(Series::from_vec(events))))
        }
        None => Ok(Err(LineFault::Range)),
    }
}

/// What the same members say of an event.
fn kevents_of(alloc: Global, changes: &[Change]) -> Result<Vec<Kevent>, Memory>
    ensures { IfOk result (λ events. events.items ≡ map kevent_of changes.now) }
{
    let mut events = Vec::with_capacity(alloc, changes.len())?;
    for change in changes {
        events.push(kevent_of(change))?;
    }
    Ok(events)
}

fn kevent_of(change: &Change) -> Kevent
    ensures { result ≡ kevent_of change.now }
{
    Kevent {
        ident: change.ident,
        filter: change.filter,
        flags: change.flags,
        fflags: change.fflags,
        datum: change.datum,
        udata: change.udata,
    }
}

/// The number of an error.
#[tactic(auto, unfolding(crate::specs::AnswerText::failed_in, kq_model::specs::Members::shaped))]
fn failed_in(value: &Value) -> Result<Given, LineFault>
    ensures { result ≡ failed_in (view value.now) }
{
    if !is_whole(value) {
        return Err(LineFault::Field);
    }
    match u32_in(value) {
        Some(error) => Ok(Given::Failed(error)),
        None => Err(LineFault::Range),
    }
}

/// The reason for which a record could not be.
#[tactic(auto, unfolding(crate::specs::AnswerText::impossible_in, crate::specs::AnswerText::impossible_by))]
fn impossible_in(value: &Value) -> Result<Given, LineFault>
    ensures { result ≡ impossible_in (view value.now) }
{
    match why_in(value) {
        Some(why) => Ok(Given::Impossible(why)),
        None => Err(LineFault::Field),
    }
}

fn why_in(value: &Value) -> Option<Why>
    ensures { result ≡ option_and_then why_named (as_str (view value.now)) }
{
    match value.as_str() {
        Some(name) => why_named(name),
        None => None,
    }
}

/// The reason of this name.
#[tactic(auto, unfolding(crate::specs::AnswerText::why_named))]
fn why_named(name: &str) -> Option<Why>
    ensures { result ≡ why_named name.now }
{
    match name {
        "NoProcess" => Some(Why::NoProcess),
        "UsedPid" => Some(Why::UsedPid),
        "NoDescriptor" => Some(Why::NoDescriptor),
        "UsedDescriptor" => Some(Why::UsedDescriptor),
        "WrongKind" => Some(Why::WrongKind),
        "Absent" => Some(Why::Absent),
        "UsedFile" => Some(Why::UsedFile),
        "ClockBack" => Some(Why::ClockBack),
        "TooMany" => Some(Why::TooMany),
        _ => None,
    }
}
