//! The records of a trace, one after the other, for who keeps none of them.

ghost use Rattle.std.specs.Prelude.{◌≡◌, ◌≤◌, IfErr, IfOk, OnErr, OnOk};
ghost use Rattle.kq_model.specs.Limits.{IsVersion};
ghost use Rattle.kq_model.specs.Reading.{reading, record_on};
ghost use Rattle.kq_trace.specs.Faults.{IsFault};
ghost use Rattle.kq_trace.specs.Unread.{IsFaultAhead, IsNext};

use crate::TraceError;
use crate::decoding::{Readers, event_on, late_fault};
use crate::header::opened;
use crate::line::first_line;
use kq_line::LineReader;
use kq_model::limits::MOST_RECORDS;
use kq_model::{Event, LineFault, Memory};
use std::alloc::Global;
use std::marker::Model;

/// The record on a line that is not the first, or the fault of that line.
pub(crate) fn event_on_line<'a>(
    alloc: Global,
    number: u64,
    line: &'a [u8],
    readers: Readers,
    reader: &mut LineReader<'a>,
) -> Result<Result<Event, LineFault>, Memory>
    ensures record { IfOk result (λ event. record_on number line.now ≡ event) }
    ensures limit { IfOk result (λ event. OnOk event (number ≤ 1000001)) }
{
    if number > MOST_RECORDS + 1 {
        return Ok(Err(late_fault(line)));
    }
    event_on(alloc, line, readers, reader)
}

/// Reads the records of a text, each when it is asked for. A trace of which a later line is bad gives
/// its earlier records first.
#[derive(Drop)]
pub struct TraceReader<'a> {
    alloc: Global,
    readers: Readers,
    line_reader: LineReader<'a>,
    version: u32,
    /// The number of the next line.
    number: u64,
    /// The text behind the lines that were read.
    rest: &'a [u8],
}

impl<'a> Model for TraceReader<'a> {
    ghost use Rattle.std.specs.Prelude.{◌≡◌, ◌≤◌};
    ghost use Rattle.kq_model.specs.Limits.{IsVersion};
    ghost use Rattle.kq_model.specs.Reading.{read_records};
    ghost use Rattle.kq_trace.specs.Rest.{lines_behind};
    ghost use Rattle.kq_trace.specs.Unread.{Unread};

    ghost Value = { Unread };

    ghost view = { λ r. record {
      version = r.version;
      line = r.number;
      meaning = read_records r.version r.number (lines_behind r.rest.now);
    } };

    ghost invariant = { λ r. IsVersion r.version × (r.number ≤ 1000002) };
}

impl<'a> TraceReader<'a> {
    /// Reads the header of a text. An error is that of line 1, or `Memory`.
    pub fn new(alloc: Global, bytes: &'a [u8]) -> Result<Self, TraceError>
        ensures meaning { IfOk result (λ reader. reading bytes.now ≡ reader.meaning) }
        ensures line { IfOk result (λ reader. reader.line ≡ 2) }
        ensures bad { IfErr result (IsFault bytes.now) }
    {
        TraceReader::by(alloc, bytes, Readers::TypedFirst)
    }

    /// Reads the header of a text, whose lines these readers are to read. An error is as in [`TraceReader::new`].
    pub(crate) fn by(alloc: Global, bytes: &'a [u8], readers: Readers) -> Result<Self, TraceError>
        ensures meaning { IfOk result (λ reader. reading bytes.now ≡ reader.meaning) }
        ensures line { IfOk result (λ reader. reader.line ≡ 2) }
        ensures bad { IfErr result (IsFault bytes.now) }
    {
        let (version, rest) = opened(alloc, bytes)?;
        Ok(TraceReader {
            alloc,
            readers,
            line_reader: LineReader::new(alloc),
            version,
            number: 2,
            rest,
        })
    }

    /// The version that the header names.
    pub fn version(&self) -> u32
        ensures version { result ≡ self.now.version }
        ensures known { IsVersion result }
    {
        self.version
    }

    /// The record on the next line, or `None` behind the last line. On `Bad` that line is the first of
    /// those ahead that has a fault; after an error nothing was read.
    pub fn next_event(&mut self) -> Result<Option<Event>, TraceError>
        ensures next { IfOk result (λ event. IsNext self.old event self.new) }
        ensures version { self.new.version ≡ self.old.version }
        ensures bad { IfErr result (IsFaultAhead self.old.meaning) }
        ensures err { OnErr result (self.new ≡ self.old) }
    {
        if self.rest.is_empty() {
            return Ok(None);
        }
        let (line, rest) = first_line(self.rest);
        let number = self.number;
        match event_on_line(
            self.alloc,
            number,
            line,
            self.readers,
            &mut self.line_reader,
        )? {
            Ok(event) => {
                self.number = number + 1;
                self.rest = rest;
                Ok(Some(event))
            }
            Err(fault) => Err(TraceError::Bad {
                line: number,
                fault,
            }),
        }
    }
}
