//! A line from its first byte to its last.

ghost use Rattle.std.specs.Prelude.{◌≡◌, IfSome, Ok};
ghost use Rattle.kq_model.specs.Reading.{event_of, json_of};

use crate::cursor::behind;
use crate::found::Found;
use crate::members::record_members;
use crate::records::event_from;
use crate::usual::usual_event;
use kq_model::Event;
use std::alloc::Global;

/// Reads records off lines, in room that one line leaves for the next.
#[derive(Drop)]
pub struct LineReader<'a> {
    record: Found<'a>,
    change: Found<'a>,
}

impl<'a> LineReader<'a> {
    /// A reader; the allocator is where the changes of a record will lie.
    pub fn new(alloc: Global) -> Self {
        LineReader {
            record: Found::new(alloc),
            change: Found::new(alloc),
        }
    }

    /// The record that a line is, without its line feed. `None` says nothing of the line: it may be good or
    /// bad, or memory for its changes was refused.
    pub fn event_on(&mut self, line: &'a [u8]) -> Option<Event>
        ensures { IfSome result (λ e. event_of (json_of line.now) ≡ Ok e) }
    {
        if let Some(event) = usual_event(line, &mut self.record, &mut self.change) {
            return Some(event);
        }
        let members = behind(line, b'{')?;
        let tail = record_members(members, &mut self.record, &mut self.change)?;
        if !tail.is_empty() {
            return None;
        }
        event_from(&self.record)
    }
}
