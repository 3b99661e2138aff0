//! A change in a record: its filter and its flags by name, and its numbers.

ghost use Rattle.std.specs.Prelude.{◌≡◌, ◌≤◌, ◌&&◌, codes, is_some, option_map, option_and_then};
ghost use Rattle.serde_json.specs.Find.{get};
ghost use Rattle.serde_json.specs.View.{view, items_view};
ghost use Rattle.kq_model.specs.ChangeText.{change_of, extra_width, filter_in, flag_in, flags_among, flags_in};
ghost use Rattle.kq_model.specs.ChangeText.{is_change};
ghost use Rattle.kq_model.specs.Members.{is_whole, optional, required};
ghost use Rattle.kq_model.specs.Names.{filter_named};
ghost use Rattle.kq_trace.specs.Parts.{has_extras, has_no_others, has_required, names_filter, names_flags};

use crate::member::{
    has_member, i64_or_zero, is_whole_at, is_whole_or_missing, u32_or_zero, u64_at, u64_or_zero,
    width,
};
use bitflags::Flags;
use kq_model::{Change, EvFlags, Filter};
use serde_json::Value;

/// The filter of this name.
#[tactic(auto, unfolding(kq_model::specs::Names::filter_named, kq_model::specs::Names::filter_among))]
fn filter_named(name: &str) -> Option<Filter>
    ensures { result ≡ filter_named name.now }
{
    match name {
        "READ" => Some(Filter::Read),
        "WRITE" => Some(Filter::Write),
        "VNODE" => Some(Filter::Vnode),
        "PROC" => Some(Filter::Proc),
        "SIGNAL" => Some(Filter::Signal),
        "TIMER" => Some(Filter::Timer),
        "USER" => Some(Filter::User),
        "AIO" => Some(Filter::Aio),
        "LIO" => Some(Filter::Lio),
        "FS" => Some(Filter::Fs),
        "PROCDESC" => Some(Filter::Procdesc),
        "SENDFILE" => Some(Filter::Sendfile),
        "EMPTY" => Some(Filter::Empty),
        _ => None,
    }
}

/// The filter that a value names.
#[tactic(auto, unfolding(kq_model::specs::ChangeText::filter_in))]
fn filter_in(value: &Value) -> Option<Filter>
    ensures { result ≡ filter_in (view value.now) }
{
    match value.as_str() {
        Some(name) => filter_named(name),
        None => None,
    }
}

/// The flag that a value names.
#[tactic(auto, unfolding(kq_model::specs::ChangeText::flag_in))]
fn flag_in(value: &Value) -> Option<EvFlags>
    ensures { option_map (λ flag. flag.0) result ≡ flag_in (view value.now) }
{
    match value.as_str() {
        Some(name) => EvFlags::from_name(name),
        None => None,
    }
}

/// The flags that the values name, each of them once.
#[tactic(auto, unfolding(kq_model::specs::ChangeText::flags_among))]
fn flags_among(values: &[Value]) -> Option<EvFlags>
    ensures { option_map (λ flags. flags.0) result ≡ flags_among 0 (items_view values.now) }
{
    let mut flags = EvFlags::empty();
    for value in values {
        match flag_in(value) {
            Some(flag) => flags = flags.union(flag),
            None => return None,
        }
    }
    Some(flags)
}

/// The flags that a list names.
#[tactic(auto, unfolding(kq_model::specs::ChangeText::flags_in))]
fn flags_in(value: &Value) -> Option<EvFlags>
    ensures { option_map (λ flags. flags.0) result ≡ flags_in (view value.now) }
{
    match value.as_array() {
        Some(values) => flags_among(values),
        None => None,
    }
}

/// The filter of a change.
fn filter_at(value: &Value) -> Option<Filter>
    ensures { result ≡ option_and_then filter_in (get (codes "filter") (view value.now)) }
{
    match value.get("filter") {
        Some(member) => filter_in(member),
        None => None,
    }
}

/// The flags of a change.
fn flags_at(value: &Value) -> Option<EvFlags>
    ensures { option_map (λ flags. flags.0) result
        ≡ option_and_then flags_in (get (codes "flags") (view value.now)) }
{
    match value.get("flags") {
        Some(member) => flags_in(member),
        None => None,
    }
}

/// How many of the members that may be missing are there.
#[tactic(auto, unfolding(kq_model::specs::ChangeText::extra_width))]
fn extra_width(value: &Value) -> usize
    ensures count { result ≡ extra_width (view value.now) }
    ensures small { result ≤ 3 }
{
    usize::from(has_member(value, "fflags"))
        + usize::from(has_member(value, "data"))
        + usize::from(has_member(value, "udata"))
}

/// Whether the change has a filter that is known.
fn has_filter(value: &Value) -> bool
    ensures { result ≡ required names_filter (get (codes "filter") (view value.now)) }
{
    filter_at(value).is_some()
}

/// Whether the change has flags that are known.
fn has_flags(value: &Value) -> bool
    ensures { result ≡ required names_flags (get (codes "flags") (view value.now)) }
{
    flags_at(value).is_some()
}

/// Whether the members that every change has are there and of their kind.
#[tactic(auto, unfolding(crate::specs::Parts::has_required))]
fn has_required(value: &Value) -> bool
    ensures { result ≡ has_required (view value.now) }
{
    is_whole_at(value, "ident") && has_filter(value) && has_flags(value)
}

/// Whether the members that may be missing are of their kind, where they are there.
#[tactic(auto, unfolding(crate::specs::Parts::has_extras))]
fn has_extras(value: &Value) -> bool
    ensures { result ≡ has_extras (view value.now) }
{
    is_whole_or_missing(value, "fflags")
        && is_whole_or_missing(value, "data")
        && is_whole_or_missing(value, "udata")
}

/// Whether the value has no member but those of a change.
#[tactic(auto, unfolding(crate::specs::Parts::has_no_others))]
fn has_no_others(value: &Value) -> bool
    ensures { result ≡ has_no_others (view value.now) }
{
    width(value) == 3 + extra_width(value)
}

/// Whether the members that may be missing are of their kind, and there are no others.
fn ends_there(value: &Value) -> bool
    ensures { result ≡ (has_extras (view value.now) && has_no_others (view value.now)) }
{
    has_extras(value) && has_no_others(value)
}

/// Whether every member is known and of its kind.
pub fn is_change(value: &Value) -> bool
    ensures { result ≡ is_change (view value.now) }
{
    has_required(value) && ends_there(value)
}

/// The change, where its numbers are in range.
#[tactic(auto, unfolding(kq_model::specs::ChangeText::change_of, kq_model::specs::ChangeText::change_with))]
pub fn change_of(value: &Value) -> Option<Change>
    ensures { result ≡ change_of (view value.now) }
{
    let ident = u64_at(value, "ident")?;
    let filter = filter_at(value)?;
    let flags = flags_at(value)?;
    let fflags = u32_or_zero(value, "fflags")?;
    let datum = i64_or_zero(value, "data")?;
    let udata = u64_or_zero(value, "udata")?;
    Some(Change {
        ident,
        filter,
        flags,
        fflags,
        datum,
        udata,
    })
}
