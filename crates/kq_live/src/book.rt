//! The book of a live system.
ghost use Rattle.std.specs.Prelude.{◌≡◌, ◌++◌, ◌^◌, ◌<◌, length, IfOk, OnOk};
ghost use Rattle.kq_model.specs.System.{row_of, rows};
ghost use Rattle.kq_live.specs.Recorded.{IsBook, IsReplayed, events_in, recorded, replies_in};
ghost use Rattle.kq_live.specs.Replies.{rows_of};

use kq_lock::Entry;
use kq_model::{Event, Memory, Reply, Row, Series, Trace};
use std::alloc::Global;
use std::marker::Model;

/// All calls of a live system, in one legal order, with their replies. Its events replay, reply by reply, to these.
#[derive(Drop)]
pub struct Book {
    version: u32,
    entries: Vec<Entry<Event, Reply>>,
}

impl Model for Book {
    ghost use Rattle.kq_live.specs.Recorded.{IsBook, Recorded, recorded};

    ghost Value = { Recorded };

    ghost view = { λ b. recorded b.version b.entries.items };

    ghost invariant = { λ b. IsBook b.version b.entries.items };
}

impl Book {
    pub(crate) fn new(version: u32, entries: Vec<Entry<Event, Reply>>) -> Book
        requires { IsBook version entries.items }
        ensures { result ≡ recorded version entries.items }
    {
        Book { version, entries }
    }

    /// How many calls it has.
    pub fn len(&self) -> usize
        ensures len { result ≡ length self.now.events }
        ensures replays { IsReplayed self.now }
        ensures countable { result < 2 ^ 31 }
    {
        self.entries.len()
    }

    /// Its events, as a trace of the version that the live system was made with.
    pub fn trace(&self) -> Result<Trace, Memory>
        ensures { IfOk result (λ t. (t.version ≡ self.now.version) × (t.events ≡ self.now.events)) }
    {
        let alloc = *self.entries.allocator();
        let events = copied_events(alloc, self.entries.as_slice())?;
        Ok(Trace {
            version: self.version,
            events: Series::from_vec(events),
        })
    }

    /// The rows of its trace: one for each answer of a kevent call and each impossible event.
    pub fn rows(&self) -> Result<Vec<Row>, Memory>
        ensures { IfOk result (λ rs. rs.items ≡ rows self.now.version self.now.events) }
    {
        let alloc = *self.entries.allocator();
        rows_of_replies(alloc, self.entries.as_slice())
    }
}

/// Copies of the events, in their order.
fn copied_events(alloc: Global, entries: &[Entry<Event, Reply>]) -> Result<Vec<Event>, Memory>
    ensures { IfOk result (λ es. es.items ≡ events_in entries.now) }
{
    let mut events = Vec::with_capacity(alloc, entries.len())?;
    for entry in entries {
        let event = entry.step.copy()?;
        events.push(event)?;
    }
    Ok(events)
}

/// The rows of the replies, of which the first is that of place 1.
fn rows_of_replies(alloc: Global, entries: &[Entry<Event, Reply>]) -> Result<Vec<Row>, Memory>
    requires { length entries.now < 2 ^ 31 }
    ensures { IfOk result (λ rs. rs.items ≡ rows_of 1 (replies_in entries.now)) }
{
    let mut rows = Vec::new(alloc);
    let mut at = 0;
    for entry in entries {
        at += 1;
        let reply = entry.answer.copy()?;
        put_row(&mut rows, at, reply)?;
    }
    Ok(rows)
}

/// Adds the row of the reply to the event at a place, if it has one.
fn put_row(rows: &mut Vec<Row>, at: u64, reply: Reply) -> Result<(), Memory>
    ensures { OnOk result (rows.new.items ≡ rows.old.items ++ row_of at reply) }
{
    match reply {
        Reply::Done => Ok(()),
        reply => rows.push(Row { at, reply }).map_err(|_| Memory),
    }
}
