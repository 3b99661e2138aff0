//! The line of a kqueue.
ghost use Rattle.std.specs.Prelude.{◌≡◌, ◌≤◌, ℕ, OnOk, Some};
ghost use Rattle.kq_model.specs.declared.event.Event.TheVariants as event_of;
ghost use Rattle.kq_projection.specs.Traced.{event_at, IsBorn};
ghost use Rattle.kq_text.specs.Adds.{Adds};
ghost use Rattle.kq_split.specs.Lines.{call_count, calls_in, kqueue_line};
ghost use Rattle.kq_split.specs.Texts.{AddsKqueueLine};

use kq_model::{Event, Memory};
use kq_projection::{Item, Split, What};
use kq_text::{put, put_number};

/// Adds the line of the kqueue that was made at a place.
pub fn put_kqueue(out: &mut Vec<u8>, split: &Split, place: u64) -> Result<(), Memory>
    requires { IsBorn place split.now }
    ensures { OnOk result (AddsKqueueLine split.now place out.old.items out.new.items) }
{
    let list = split.private(place)?;
    put_line(
        out,
        place,
        list.owner(),
        number_at(split, place),
        list.items(),
    )
}

/// The number in the record that made a kqueue at a place.
fn number_at(split: &Split, place: u64) -> u32
    requires { (owner : ℕ) × (number : ℕ)
        × (event_at split.now place ≡ Some (event_of.Kqueue owner number)) }
    ensures { (owner : ℕ) × (event_at split.now place ≡ Some (event_of.Kqueue owner result)) }
{
    let Some(event) = split.event(place) else {
        unreachable!();
    };
    let Event::Kqueue { fd, .. } = event else {
        unreachable!();
    };
    *fd
}

fn put_line(
    out: &mut Vec<u8>,
    place: u64,
    owner: u32,
    number: u32,
    items: &[Item],
) -> Result<(), Memory>
    ensures { OnOk result (Adds out.old.items (kqueue_line place owner number items.now) out.new.items) }
{
    put(out, "{\"at\":")?;
    put_number(out, place)?;
    put(out, ",\"calls\":")?;
    put_number(out, calls_among(items))?;
    put(out, ",\"fd\":")?;
    put_number(out, number)?;
    put(out, ",\"items\":")?;
    put_number(out, items.len() as u64)?;
    put(out, ",\"pid\":")?;
    put_number(out, owner)?;
    put(out, "}\n")
}

/// How many of these items are calls.
fn calls_among(items: &[Item]) -> u64
    ensures { result ≡ call_count items.now }
{
    let mut calls = 0;
    for item in items {
        calls += calls_in(*item);
    }
    calls
}

#[tactic(auto, unfolding(crate::specs::Lines::calls_in))]
fn calls_in(item: Item) -> u64
    ensures calls { result ≡ calls_in item.what }
    ensures few { result ≤ 1 }
{
    match item.what {
        What::Called { .. } => 1,
        What::Closed { .. } | What::Told { .. } | What::Clocked { .. } => 0,
    }
}
