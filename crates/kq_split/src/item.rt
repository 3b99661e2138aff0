//! The line of an item of a private list.
ghost use Rattle.std.specs.Prelude.{◌++◌, codes, OnOk};
ghost use Rattle.serde_json.specs.Written.{compact_text};
ghost use Rattle.kq_projection.specs.declared.history.item.What.TheVariants as what_of;
ghost use Rattle.kq_text.specs.Adds.{Adds};
ghost use Rattle.kq_split.specs.Lines.{hint_data, item_line, target_data, what_line};

use kq_model::{Hint, Memory, Target};
use kq_projection::{Item, What};
use kq_text::{put, put_number};

/// Adds the line of an item.
pub fn put_item(out: &mut Vec<u8>, item: Item) -> Result<(), Memory>
    ensures { OnOk result (Adds out.old.items (item_line item) out.new.items) }
{
    match item.what {
        What::Closed { pid, number } => put_close(out, item.place, pid, number),
        What::Told { target, hint } => put_told(out, item.place, target, hint),
        What::Clocked { from, to } => put_clock(out, item.place, from, to),
        What::Called { kqueue } => put_call(out, item.place, kqueue),
    }
}

fn put_close(out: &mut Vec<u8>, place: u64, pid: u32, number: u32) -> Result<(), Memory>
    ensures { OnOk result (Adds out.old.items (what_line place (what_of.Closed pid number)) out.new.items) }
{
    put(out, "{\"at\":")?;
    put_number(out, place)?;
    put(out, ",\"close\":{\"fd\":")?;
    put_number(out, number)?;
    put(out, ",\"pid\":")?;
    put_number(out, pid)?;
    put(out, "}}\n")
}

fn put_told(out: &mut Vec<u8>, place: u64, target: Target, hint: Hint) -> Result<(), Memory>
    ensures { OnOk result (Adds out.old.items (what_line place (what_of.Told target hint)) out.new.items) }
{
    put(out, "{\"at\":")?;
    put_number(out, place)?;
    put(out, ",\"hint\":")?;
    put_hint(out, hint)?;
    put(out, ",\"target\":")?;
    put_target(out, target)?;
    put(out, "}\n")
}

fn put_clock(out: &mut Vec<u8>, place: u64, from: u64, to: u64) -> Result<(), Memory>
    ensures { OnOk result (Adds out.old.items (what_line place (what_of.Clocked from to)) out.new.items) }
{
    put(out, "{\"at\":")?;
    put_number(out, place)?;
    put(out, ",\"clock\":{\"from\":")?;
    put_number(out, from)?;
    put(out, ",\"to\":")?;
    put_number(out, to)?;
    put(out, "}}\n")
}

fn put_call(out: &mut Vec<u8>, place: u64, kqueue: u64) -> Result<(), Memory>
    ensures { OnOk result (Adds out.old.items (what_line place (what_of.Called kqueue)) out.new.items) }
{
    put(out, "{\"at\":")?;
    put_number(out, place)?;
    put(out, ",\"call\":")?;
    put_number(out, kqueue)?;
    put(out, "}\n")
}

/// Adds what is told.
fn put_hint(out: &mut Vec<u8>, hint: Hint) -> Result<(), Memory>
    ensures { OnOk result (Adds out.old.items (compact_text (hint_data hint)) out.new.items) }
{
    match hint {
        Hint::Readable => put(out, "\"readable\""),
        Hint::Writable => put(out, "\"writable\""),
        Hint::Note(bits) => put_member(out, "{\"note\":", bits),
        Hint::Delivered => put(out, "\"delivered\""),
        Hint::Child(pid) => put_member(out, "{\"child\":", pid),
    }
}

/// Adds what is watched.
fn put_target(out: &mut Vec<u8>, target: Target) -> Result<(), Memory>
    ensures { OnOk result (Adds out.old.items (compact_text (target_data target)) out.new.items) }
{
    match target {
        Target::Socket(place) => put_member(out, "{\"socket\":", place),
        Target::Pipe(place) => put_member(out, "{\"pipe\":", place),
        Target::Open(place) => put_member(out, "{\"open\":", place),
        Target::File(number) => put_member(out, "{\"file\":", number),
        Target::Process(pid) => put_member(out, "{\"pid\":", pid),
        Target::Signal { pid, signal } => put_signal(out, pid, signal),
        Target::Own => put(out, "\"own\""),
    }
}

/// Adds an object of one member: what stands before its number, the number, and the closing brace.
fn put_member<I: itoa::Integer>(out: &mut Vec<u8>, before: &str, number: I) -> Result<(), Memory>
    ensures { OnOk result (Adds out.old.items (before.now ++ (I.text number ++ codes "}")) out.new.items) }
{
    put(out, before)?;
    put_number(out, number)?;
    put(out, "}")
}

fn put_signal(out: &mut Vec<u8>, pid: u32, signal: u32) -> Result<(), Memory>
    ensures { OnOk result (Adds out.old.items (compact_text (target_data (Target.Signal pid signal))) out.new.items) }
{
    put(out, "{\"pid\":")?;
    put_number(out, pid)?;
    put(out, ",\"sig\":")?;
    put_number(out, signal)?;
    put(out, "}")
}
