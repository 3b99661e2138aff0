//! The members of a record: whether they are there, of which kind, and their values in range.

ghost use Rattle.std.specs.Prelude.{◌≡◌, ◌⊎◌, ℕ, None, Some, MatchOption, map, option_and_then, pos};
ghost use Rattle.std.specs.List.{list_all};
ghost use Rattle.serde_json.specs.Find.{get};
ghost use Rattle.serde_json.specs.View.{view};
ghost use Rattle.kq_model.specs.Members.{has_just, has_member, is_whole, i64_in, moment_in, optional, or_else};
ghost use Rattle.kq_model.specs.Members.{required, u32_in, u64_in, width};
ghost use Rattle.kq_model.specs.RecordText.{i64_at, moment_at, truth_at, u32_at};

use serde_json::Value;

/// How many members an object has; anything else has none.
#[tactic(auto, using(crate::proofs::Found::found_width))]
pub fn width(value: &Value) -> usize
    ensures { result ≡ width (view value.now) }
{
    match value.as_object() {
        Some(members) => members.len(),
        None => 0,
    }
}

/// Whether a value has this member.
pub fn has_member(value: &Value, name: &str) -> bool
    ensures { result ≡ has_member (view value.now) name.now }
{
    value.get(name).is_some()
}

/// Whether a value has each of these members.
fn has_all(value: &Value, names: &[&str]) -> bool
    ensures { result ≡ list_all (λ name. has_member (view value.now) name.now) names.now }
{
    names.iter().all(|name| value.get(*name).is_some())
}

/// Whether a value is an object with each of these members, and no further one.
pub fn has_just(value: &Value, names: &[&str]) -> bool
    ensures { result ≡ has_just (map (λ name. name.now) names.now) (view value.now) }
{
    has_all(value, names) && width(value) == names.len()
}

/// Whether a value is a whole number of 64 bits, with a sign or without.
#[tactic(auto, using(crate::proofs::Found::found_whole))]
pub fn is_whole(value: &Value) -> bool
    ensures { result ≡ is_whole (view value.now) }
{
    value.is_u64() || value.is_i64()
}

/// A whole number of 64 bits.
#[tactic(auto, using(crate::proofs::Found::found_u64))]
pub fn u64_in(value: &Value) -> Option<u64>
    ensures { result ≡ u64_in (view value.now) }
{
    value.as_u64()
}

/// A whole number of 32 bits.
#[tactic(auto, using(crate::proofs::Found::found_u32))]
pub fn u32_in(value: &Value) -> Option<u32>
    ensures { result ≡ u32_in (view value.now) }
{
    match value.as_u64() {
        Some(number) => u32::try_from(number).ok(),
        None => None,
    }
}

/// A whole number of 64 bits with a sign.
#[tactic(auto, using(crate::proofs::Found::found_i64))]
pub fn i64_in(value: &Value) -> Option<i64>
    ensures { result ≡ i64_in (view value.now) }
{
    value.as_i64()
}

/// A moment of the clock, in ns: a whole number from 0 to 2^63 - 1.
#[tactic(auto, unfolding(kq_model::specs::Members::moment_in, kq_model::specs::Members::from_zero))]
fn moment_in(value: &Value) -> Option<i64>
    ensures { result ≡ moment_in (view value.now) }
{
    match i64_in(value) {
        Some(moment) => { if moment < 0 { None } else { Some(moment) } }
        None => None,
    }
}

/// Whether the member is there and a whole number.
#[tactic(auto, unfolding(kq_model::specs::Members::required))]
pub fn is_whole_at(value: &Value, name: &str) -> bool
    ensures { result ≡ required is_whole (get name.now (view value.now)) }
{
    match value.get(name) {
        Some(member) => is_whole(member),
        None => false,
    }
}

/// The member, where it is a whole number of 32 bits.
#[tactic(auto, unfolding(kq_model::specs::RecordText::u32_at))]
pub fn u32_at(value: &Value, name: &str) -> Option<u32>
    ensures { result ≡ u32_at name.now (view value.now) }
{
    match value.get(name) {
        Some(member) => u32_in(member),
        None => None,
    }
}

/// Two members, where each is a whole number of 32 bits.
pub fn two_at(value: &Value, one: &str, other: &str) -> Option<(u32, u32)>
    ensures { MatchOption result
        ((u32_at one.now (view value.now) ≡ None)
        ⊎ ((number : ℕ) × (u32_at one.now (view value.now) ≡ Some number)
        × (u32_at other.now (view value.now) ≡ None)))
        (λ two. (u32_at one.now (view value.now) ≡ Some two.0)
        × (u32_at other.now (view value.now) ≡ Some two.1)) }
{
    let one = u32_at(value, one)?;
    let other = u32_at(value, other)?;
    Some((one, other))
}

/// The member, where it is a whole number of 64 bits with a sign.
#[tactic(auto, unfolding(kq_model::specs::RecordText::i64_at))]
pub fn i64_at(value: &Value, name: &str) -> Option<i64>
    ensures { result ≡ i64_at name.now (view value.now) }
{
    match value.get(name) {
        Some(member) => i64_in(member),
        None => None,
    }
}

/// The member, where it is a moment of the clock.
#[tactic(auto, unfolding(kq_model::specs::RecordText::moment_at))]
pub fn moment_at(value: &Value, name: &str) -> Option<i64>
    ensures { result ≡ moment_at name.now (view value.now) }
{
    match value.get(name) {
        Some(member) => moment_in(member),
        None => None,
    }
}

/// The member, where it is true or false.
#[tactic(auto, unfolding(kq_model::specs::RecordText::truth_at))]
pub fn truth_at(value: &Value, name: &str) -> Option<bool>
    ensures { result ≡ truth_at name.now (view value.now) }
{
    match value.get(name) {
        Some(member) => member.as_bool(),
        None => None,
    }
}

/// Whether the member is a whole number, where it is there.
#[tactic(auto, unfolding(kq_model::specs::Members::optional))]
pub fn is_whole_or_missing(value: &Value, name: &str) -> bool
    ensures { result ≡ optional is_whole (get name.now (view value.now)) }
{
    match value.get(name) {
        Some(member) => is_whole(member),
        None => true,
    }
}

/// The member, where it is a whole number of 64 bits.
pub fn u64_at(value: &Value, name: &str) -> Option<u64>
    ensures { result ≡ option_and_then u64_in (get name.now (view value.now)) }
{
    match value.get(name) {
        Some(member) => u64_in(member),
        None => None,
    }
}

/// The member, where it is a whole number of 64 bits, and 0 where it is missing.
#[tactic(auto, unfolding(kq_model::specs::Members::or_else))]
pub fn u64_or_zero(value: &Value, name: &str) -> Option<u64>
    ensures { result ≡ or_else 0 u64_in (get name.now (view value.now)) }
{
    match value.get(name) {
        Some(member) => u64_in(member),
        None => Some(0),
    }
}

/// The member, where it is a whole number of 32 bits, and 0 where it is missing.
#[tactic(auto, unfolding(kq_model::specs::Members::or_else))]
pub fn u32_or_zero(value: &Value, name: &str) -> Option<u32>
    ensures { result ≡ or_else 0 u32_in (get name.now (view value.now)) }
{
    match value.get(name) {
        Some(member) => u32_in(member),
        None => Some(0),
    }
}

/// The member, where it is a whole number of 64 bits with a sign, and 0 where it is missing.
#[tactic(auto, unfolding(kq_model::specs::Members::or_else))]
pub fn i64_or_zero(value: &Value, name: &str) -> Option<i64>
    ensures { result ≡ or_else (pos 0) i64_in (get name.now (view value.now)) }
{
    match value.get(name) {
        Some(member) => i64_in(member),
        None => Some(0),
    }
}
