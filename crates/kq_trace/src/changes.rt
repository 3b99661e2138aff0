//! The changes of a kevent record.

ghost use Rattle.std.specs.Prelude.{◌≡◌, IfOk, option_map};
ghost use Rattle.serde_json.specs.View.{view, items_view};
ghost use Rattle.kq_model.specs.ChangeText.{are_changes, change_list, changes_of, is_change_list};

use crate::change::{change_of, is_change};
use kq_model::{Change, Memory};
use serde_json::Value;
use std::alloc::Global;

/// Whether each of the values is a change.
#[tactic(auto, unfolding(kq_model::specs::ChangeText::are_changes))]
fn are_changes(values: &[Value]) -> bool
    ensures { result ≡ are_changes (items_view values.now) }
{
    for value in values {
        if !is_change(value) {
            return false;
        }
    }
    true
}

/// The changes, where all their numbers are in range.
#[tactic(auto, unfolding(kq_model::specs::ChangeText::changes_of))]
fn changes_of(alloc: Global, values: &[Value]) -> Result<Option<Vec<Change>>, Memory>
    ensures { IfOk result
        (λ found. option_map (λ changes. changes.items) found ≡ changes_of (items_view values.now)) }
{
    let mut changes = Vec::with_capacity(alloc, values.len())?;
    for value in values {
        match change_of(value) {
            Some(change) => changes.push(change)?,
            None => return Ok(None),
        }
    }
    Ok(Some(changes))
}

/// Whether a value is a list of changes.
#[tactic(auto, unfolding(kq_model::specs::ChangeText::is_change_list))]
pub fn is_change_list(value: &Value) -> bool
    ensures { result ≡ is_change_list (view value.now) }
{
    match value.as_array() {
        Some(values) => are_changes(values),
        None => false,
    }
}

/// The list of changes, where all their numbers are in range.
#[tactic(auto, unfolding(kq_model::specs::ChangeText::change_list))]
pub fn change_list(alloc: Global, value: &Value) -> Result<Option<Vec<Change>>, Memory>
    ensures { IfOk result
        (λ found. option_map (λ changes. changes.items) found ≡ change_list (view value.now)) }
{
    match value.as_array() {
        Some(values) => changes_of(alloc, values),
        None => Ok(None),
    }
}
