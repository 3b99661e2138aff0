//! The text of a report as it grows row by row, and the counts for its last line.

ghost use Rattle.std.specs.Prelude.{◌≡◌, ◌≤◌, ◌++◌, IfOk};
ghost use Rattle.kq_model.specs.Report.{calls_in, events_in, last_line};
ghost use Rattle.kq_merge.specs.Written.{nothing_written, with_reply};

use super::chunks::TextChunks;
use super::line::put_counts;
use super::lines::Lines;
use kq_model::{Memory, Reply};
use std::alloc::Global;
use std::marker::Model;

/// The text of a report as it grows, for who has one row after the other and keeps none.
#[derive(Drop)]
pub struct ReportText {
    lines: Lines,
    calls: u64,
    events: u128,
}

impl Model for ReportText {
    ghost use Rattle.std.specs.Prelude.{◌≤◌, ◌*◌, ◌^◌, length};
    ghost use Rattle.kq_merge.specs.Written.{Written};

    ghost Value = { Written };

    ghost view = { λ t. record { lines = t.lines; calls = t.calls; events = t.events } };

    ghost invariant = { λ t. (t.calls ≤ length t.lines) × (t.events ≤ t.calls * 2 ^ 64) };
}

impl ReportText {
    /// No row yet.
    pub fn new(alloc: Global) -> Self
        ensures { result ≡ nothing_written }
    {
        ReportText {
            lines: Lines::new(alloc),
            calls: 0,
            events: 0,
        }
    }

    /// The text with the row of the reply to the record at a place; a record that was only done has
    /// no row. Memory: a growth was refused.
    pub fn with_row(mut self, at: u64, reply: &Reply) -> Result<Self, Memory>
        ensures { IfOk result (λ text. text ≡ with_reply at reply.now self) }
    {
        self.lines.put(at, reply)?;
        self.calls += calls_in(reply);
        self.events += u128::from(events_in(reply));
        Ok(self)
    }

    /// The whole text, with the last line, which counts the calls and events of the rows, and the
    /// records of which they are the rows. Memory: a growth was refused, or the text would be longer
    /// than memory can be.
    pub fn end(self, records: u64) -> Result<Vec<u8>, Memory>
        ensures { IfOk result (λ text. text.items ≡ self.lines ++ last_line self.calls self.events records) }
    {
        self.end_in_chunks(records)?.joined()
    }

    /// The whole text that [`ReportText::end`] gives, in the chunks in which it stands in memory. Memory as there.
    pub fn end_in_chunks(self, records: u64) -> Result<TextChunks, Memory>
        ensures { IfOk result (λ text. text ≡ self.lines ++ last_line self.calls self.events records) }
    {
        let ReportText {
            lines,
            calls,
            events,
        } = self;
        let mut text = lines.into_text()?;
        let mut last = Vec::new(text.allocator());
        put_counts(&mut last, calls, events, records)?;
        text.push(last)?;
        Ok(text)
    }
}

/// How many answers of calls a reply is.
#[tactic(auto, unfolding(kq_model::specs::Report::calls_in))]
pub fn calls_in(reply: &Reply) -> u64
    ensures value { result ≡ calls_in reply.now }
    ensures bound { result ≤ 1 }
{
    match reply {
        Reply::Events(_) | Reply::Failed(_) => 1,
        Reply::Done | Reply::Impossible(_) => 0,
    }
}

/// How many events a reply has.
#[tactic(auto, unfolding(kq_model::specs::Report::events_in))]
pub fn events_in(reply: &Reply) -> u64
    ensures { result ≡ events_in reply.now }
{
    match reply {
        Reply::Events(events) => events.len() as u64,
        Reply::Done | Reply::Failed(_) | Reply::Impossible(_) => 0,
    }
}
