//! The lines of a report: that of a reply, and the last one, which counts.

ghost use Rattle.std.specs.Prelude.{◌≤◌, ◌+◌, ◌*◌, ◌++◌, codes, decimal, false, length, OnOk};
ghost use Rattle.kq_model.specs.Report.{last_line, reply_line};
ghost use Rattle.kq_text.specs.Adds.{Adds};
ghost use Rattle.kq_text.specs.Writes.{Writes};
ghost use Rattle.kq_merge.specs.Bounds.{line_bound};
ghost use Rattle.kq_merge.specs.EventsText.{events_text};

use super::bound::{EVENT_BYTES, LINE_BYTES, line_bound};
use super::event::write_event_at;
use kq_model::{Errno, Kevent, Memory, Reply, Why};
use kq_text::{put, put_number, write_at, write_number_at};

/// How many bytes stand before the answer in a line at most.
const PLACE_BYTES: usize = 26;

/// Adds the line of the reply to the record at a place; of a record that was only done, nothing.
pub fn put_reply(out: &mut Vec<u8>, at: u64, reply: &Reply) -> Result<(), Memory>
    ensures { OnOk result (Adds out.old.items (reply_line at reply.now) out.new.items) }
{
    let start = out.len();
    let bytes = usize::try_from(line_bound(reply)).map_err(|_| Memory)?;
    let room = start.checked_add(bytes).ok_or(Memory)?;
    out.resize(room, 0)?;
    let end = write_reply_at(out.as_mut_slice(), start, at, reply);
    out.truncate(end);
    Ok(())
}

/// Writes the line of the reply to the record at a place over bytes that are there, from one of them on; of a record
/// that was only done, nothing. Where the line ends is returned.
#[tactic(auto, unfolding(kq_model::specs::Report::events_in))]
pub fn write_reply_at(out: &mut [u8], start: usize, at: u64, reply: &Reply) -> usize
    requires { start + line_bound reply.now ≤ length out.old }
    ensures text { Writes out.old start (reply_line at reply.now) out.new result }
    ensures short { result ≤ start + line_bound reply.now }
{
    match reply {
        Reply::Done => start,
        Reply::Events(events) => write_returned_at(out, start, at, events.as_slice()),
        Reply::Failed(error) => write_failed_at(out, start, at, *error),
        Reply::Impossible(why) => write_impossible_at(out, start, at, *why),
    }
}

fn write_returned_at(out: &mut [u8], start: usize, at: u64, events: &[Kevent]) -> usize
    requires { start + (LINE_BYTES + EVENT_BYTES * length events.now) ≤ length out.old }
    ensures text { Writes out.old start (reply_line at (Reply.Events events.now)) out.new result }
    ensures short { result ≤ start + (LINE_BYTES + EVENT_BYTES * length events.now) }
{
    let end = write_place_at(out, start, at);
    if events.is_empty() {
        return write_at(out, end, ",\"events\":[]}\n");
    }
    let end = write_at(out, end, ",\"events\":[");
    let end = write_events_at(out, end, events);
    write_at(out, end, "}\n")
}

fn write_failed_at(out: &mut [u8], start: usize, at: u64, error: Errno) -> usize
    requires { start + LINE_BYTES ≤ length out.old }
    ensures text { Writes out.old start (reply_line at (Reply.Failed error)) out.new result }
    ensures short { result ≤ start + LINE_BYTES }
{
    let end = write_place_at(out, start, at);
    let end = write_at(out, end, ",\"failed\":");
    let end = write_number_at(out, end, u64::from(error.code()));
    write_at(out, end, "}\n")
}

fn write_impossible_at(out: &mut [u8], start: usize, at: u64, why: Why) -> usize
    requires { start + LINE_BYTES ≤ length out.old }
    ensures text { Writes out.old start (reply_line at (Reply.Impossible why)) out.new result }
    ensures short { result ≤ start + LINE_BYTES }
{
    let end = write_place_at(out, start, at);
    let end = write_at(out, end, ",\"impossible\":\"");
    let end = write_at(out, end, why.name());
    write_at(out, end, "\"}\n")
}

#[inline(always)]
fn write_place_at(out: &mut [u8], start: usize, at: u64) -> usize
    requires { start + PLACE_BYTES ≤ length out.old }
    ensures text { Writes out.old start (codes "{\"at\":" ++ decimal at) out.new result }
    ensures short { result ≤ start + PLACE_BYTES }
{
    let end = write_at(out, start, "{\"at\":");
    write_number_at(out, end, at)
}

/// Writes the events of a list behind its bracket, and the bracket that closes it.
fn write_events_at(out: &mut [u8], start: usize, events: &[Kevent]) -> usize
    requires { start + (EVENT_BYTES * length events.now + 1) ≤ length out.old }
    ensures text { Writes out.old start (events_text false events.now) out.new result }
    ensures short { result ≤ start + (EVENT_BYTES * length events.now + 1) }
{
    let mut end = start;
    let mut is_later = false;
    for event in events {
        end = write_event_at(out, end, event, is_later);
        is_later = true;
    }
    write_at(out, end, "]")
}

/// Adds the line that counts calls, events and records.
pub fn put_counts(out: &mut Vec<u8>, calls: u64, events: u128, records: u64) -> Result<(), Memory>
    ensures { OnOk result (Adds out.old.items (last_line calls events records) out.new.items) }
{
    put(out, "{\"calls\":")?;
    put_number(out, calls)?;
    put(out, ",\"events\":")?;
    put_number(out, events)?;
    put(out, ",\"records\":")?;
    put_number(out, records)?;
    put(out, "}\n")
}
