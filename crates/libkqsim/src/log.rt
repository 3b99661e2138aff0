//! What a system logs as text: the trace of its records, and the report of it.
ghost use Rattle.std.specs.Prelude.{◌≡◌, ◌≤◌, ◌<◌, length, OnOk, OnErr};
ghost use Rattle.kq_merge.specs.Bounds.{line_bound};
ghost use Rattle.kq_merge.specs.Rooms.{answer_bound};
ghost use Rattle.kq_model.specs.Spelling.{line_text, record_data};
ghost use Rattle.libkqsim.specs.Logs.{begun, ended, IsNext, no_log, with_line, with_rest};
ghost use Rattle.libkqsim.specs.declared.sim.Stream.TheVariants as stream;

use crate::text::Text;
use kq_merge::{answer_bound, calls_in, events_in, put_counts};
use kq_model::{Event, Memory, Reply};
use kq_spell::{put_header, put_record};
use std::alloc::Global;
use std::marker::Model;

/// Whether records are logged.
#[derive(Debug, Drop, Clone, Copy, PartialEq, Eq)]
pub(crate) enum Stage {
    /// Not yet.
    Off,
    On,
    /// No longer.
    Ended,
}

/// The texts of a log, and what the last line of the report is to count.
#[derive(Drop)]
pub(crate) struct Log {
    version: u32,
    stage: Stage,
    trace: Text,
    report: Text,
    /// A line that is put together before it is logged.
    line: Vec<u8>,
    calls: u64,
    events: u128,
}

impl Model for Log {
    ghost use Rattle.std.specs.Prelude.{◌≤◌, ◌*◌, ◌^◌};
    ghost use Rattle.libkqsim.specs.Logs.{LogState};

    ghost Value = { LogState };

    ghost view = { λ l. record {
      logged = record {
        version = l.version;
        stage = l.stage;
        trace = l.trace.text;
        report = l.report.text;
        calls = l.calls;
        events = l.events;
      };
      line = l.line.items;
      line_room = l.trace.room;
      answer_room = l.report.room;
    } };

    ghost invariant = { λ l. l.events ≤ l.calls * 2 ^ 64 };
}

impl Log {
    /// None is begun yet, of a trace of this version.
    pub(crate) fn new(alloc: Global, version: u32) -> Self
        ensures { result.logged ≡ no_log version }
    {
        Log {
            version,
            stage: Stage::Off,
            trace: Text::new(alloc),
            report: Text::new(alloc),
            line: Vec::new(alloc),
            calls: 0,
            events: 0,
        }
    }

    /// Whether records are logged.
    pub(crate) fn stage(&self) -> Stage
        ensures { result ≡ self.now.logged.stage }
    {
        self.stage
    }

    /// Begins the trace by its header.
    pub(crate) fn begin(&mut self) -> Result<(), Memory>
        ensures log { OnOk result (self.new.logged ≡ begun self.old.logged) }
        ensures refused { OnErr result (self.new.logged ≡ self.old.logged) }
    {
        self.line.clear();
        put_header(&mut self.line, self.version)?;
        self.trace.reserve(self.line.len())?;
        self.trace.put(self.line.as_slice());
        self.stage = Stage::On;
        Ok(())
    }

    /// Puts together the line of a record, and takes memory for it and for the line of its answer. Nothing is logged.
    pub(crate) fn make_room(&mut self, event: &Event) -> Result<(), Memory>
        ensures log { self.new.logged ≡ self.old.logged }
        ensures line { OnOk result (self.new.line ≡ line_text (record_data event.now)) }
        ensures line_room { OnOk result (length self.new.line ≤ self.new.line_room) }
        ensures answer_room { OnOk result (answer_bound event.now ≤ self.new.answer_room) }
    {
        self.line.clear();
        put_record(&mut self.line, event)?;
        self.trace.reserve(self.line.len())?;
        self.report.reserve(answer_bound(event))
    }

    /// Logs the record whose line was put together, and the reply to it, by its place.
    pub(crate) fn put(&mut self, at: u64, reply: &Reply)
        requires line_room { length self.old.line ≤ self.old.line_room }
        requires answer_room { line_bound reply.now ≤ self.old.answer_room }
        requires calls { self.old.logged.calls < at }
        ensures { self.new.logged ≡ with_line at self.old.line reply.now self.old.logged }
    {
        self.trace.put(self.line.as_slice());
        self.report.put_reply(at, reply);
        self.calls += calls_in(reply);
        self.events += u128::from(events_in(reply));
    }

    /// Ends the report by its last line.
    pub(crate) fn end(&mut self, records: u64) -> Result<(), Memory>
        ensures log { OnOk result (self.new.logged ≡ ended records self.old.logged) }
        ensures refused { OnErr result (self.new.logged ≡ self.old.logged) }
    {
        self.line.clear();
        put_counts(&mut self.line, self.calls, self.events, records)?;
        self.report.reserve(self.line.len())?;
        self.report.put(self.line.as_slice());
        self.stage = Stage::Ended;
        Ok(())
    }

    /// Takes the first byte of the trace.
    pub(crate) fn next_of_trace(&mut self) -> Option<u8>
        ensures next { IsNext self.old.logged.trace self.new.logged.trace result }
        ensures rest { self.new.logged ≡ with_rest stream.Trace self.new.logged.trace self.old.logged }
    {
        self.trace.next()
    }

    /// Takes the first byte of the report.
    pub(crate) fn next_of_report(&mut self) -> Option<u8>
        ensures next { IsNext self.old.logged.report self.new.logged.report result }
        ensures rest { self.new.logged ≡ with_rest stream.Report self.new.logged.report self.old.logged }
    {
        self.report.next()
    }
}
