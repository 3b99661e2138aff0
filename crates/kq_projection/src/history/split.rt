//! A trace after one pass of the world, from which the private lists are taken.

ghost use Rattle.std.specs.Prelude.{◌≡◌, pos, IfOk};

use crate::history::at::HistoryAt;
use crate::history::private::Private;
use crate::history::seen::Seen;
use crate::history::splitting::Splitting;
use crate::history::trace_messages::TraceMessages;
use kq_model::{Event, Memory, Named, Row, Target, Trace, Version, View};
use std::alloc::Global;
use std::marker::Model;

/// A trace with what was seen of the world after each of its records, what these say to kqueues, and
/// the rows of those that are impossible.
#[derive(Drop)]
pub struct Split<'a> {
    pub(crate) version: Version,
    pub(crate) events: &'a [Event],
    pub(crate) seen: Seen,
    pub(crate) said: TraceMessages,
    pub(crate) plain: Vec<Row>,
}

impl<'a> Model for Split<'a> {
    ghost use Rattle.kq_projection.specs.Split.{IsSplit};
    ghost use Rattle.kq_projection.specs.Traced.{Traced};

    ghost Value = { Traced };

    ghost view = { λ s. record { version = s.version; events = s.events.now } };

    ghost invariant = { λ s.
        IsSplit (record { version = s.version; events = s.events.now }) s.seen s.said s.plain.items };
}

impl<'a> Split<'a> {
    ghost use Rattle.std.specs.List.Sorted.{IsStrictlyIncreasing};
    ghost use Rattle.kq_projection.specs.Private.{IsPrivate};
    ghost use Rattle.kq_projection.specs.Traced.{places_of, plain_rows_of, seen_at, traced, IsBorn};

    /// One pass of the world over the trace. Its cost is that of the trace. Memory: a growth was refused.
    pub fn of(alloc: Global, trace: &'a Trace) -> Result<Self, Memory>
        ensures { IfOk result (λ s. s ≡ traced trace.now) }
    {
        let events = trace.events.as_slice();
        let mut splitting = Splitting::new(alloc)?;
        splitting.take(0, events)?;
        splitting.end(trace)
    }

    /// The places where kqueues were made, rising.
    pub fn kqueues(&self) -> &[u64]
        ensures places { result.now ≡ places_of self.now }
        ensures rising { IsStrictlyIncreasing result.now }
    {
        self.said.kqueues.places()
    }

    /// What concerns the kqueue that was made at a place: its private list. Its cost is that of the list. Memory: a
    /// growth was refused.
    pub fn private<'s>(&'s self, kqueue: u64) -> Result<Private<'s, 'a>, Memory>
        requires { IsBorn kqueue self.now }
        ensures split { IfOk result (λ p. p.split.now ≡ self.now) }
        ensures kqueue { IfOk result (λ p. p.kqueue ≡ kqueue) }
        ensures items { IfOk result (λ p. IsPrivate self.now kqueue p.owner p.items.items) }
    {
        let concerned = self.said.kqueues.of(kqueue);
        let items = self
            .said
            .log
            .pick_reached(self.version.number() != 1, concerned.sources.as_slice())?;
        Ok(Private {
            split: self,
            kqueue,
            owner: concerned.owner,
            items,
        })
    }

    /// The rows of all impossible records, by rising place.
    pub fn plain_rows(&self) -> &[Row]
        ensures { result.now ≡ plain_rows_of self.now }
    {
        self.plain.as_slice()
    }

    /// The world after the record of a place, as kqueues see it; the empty one at place 0.
    pub fn at<'s>(&'s self, place: u64) -> HistoryAt<'s, 'a>
        ensures split { result.split.now ≡ self.now }
        ensures place { result.place ≡ place }
    {
        HistoryAt { split: self, place }
    }

    /// What is seen of a target after a place.
    pub(crate) fn view(&self, place: u64, target: Target) -> Option<View>
        ensures { result ≡ (seen_at self.now place).view target }
    {
        self.seen.view(place, target)
    }

    /// What a number of a process names after a place.
    pub(crate) fn descriptor(&self, place: u64, pid: u32, number: u32) -> Option<Named>
        ensures { result ≡ (seen_at self.now place).descriptor pid number }
    {
        self.seen.descriptor(place, pid, number)
    }

    /// The clock after a place, in ns.
    pub(crate) fn now(&self, place: u64) -> i64
        ensures { result ≡ pos (seen_at self.now place).now }
    {
        self.seen.now(place) as i64
    }
}

impl<'a> Split<'a> {
    ghost use Rattle.std.specs.Prelude.{length, MatchOption, None, Some};
    ghost use Rattle.kq_projection.specs.Traced.{event_at, places_of};

    /// What its memory is from.
    pub fn allocator(&self) -> Global {
        *self.plain.allocator()
    }

    /// The version of the trace's format.
    pub fn version(&self) -> Version
        ensures version { result ≡ self.now.version }
    {
        self.version
    }

    /// How many records the trace has.
    pub fn record_count(&self) -> u64
        ensures { result ≡ length self.now.events }
    {
        self.events.len() as u64
    }

    /// How many kqueues the trace makes: fewer than it has records.
    pub fn kqueue_count(&self) -> u32
        ensures { result ≡ length (places_of self.now) }
    {
        let kqueues = &self.said.kqueues;
        kqueues.places().len() as u32
    }

    /// The event of the record at a place, of which the first is 1; none where there is no such place.
    pub fn event(&self, place: u64) -> Option<&'a Event>
        ensures { MatchOption result (event_at self.now place ≡ None) (λ e. event_at self.now place ≡ Some e.now) }
    {
        let before = place.checked_sub(1)?;
        self.events.get(before as usize)
    }
}
