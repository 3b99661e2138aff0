//! Kqueues whose order was left open: those of calls that have no answer and could have returned other kevents.

ghost use Rattle.std.specs.Prelude.{◌≡◌, [], None, OnOk, if◌then◌else◌};
ghost use Rattle.kq_check.specs.LeftOpen.{is_open, kqueue_of, leaves_some, open_with, waiting_of};
ghost use Rattle.kq_model.specs.Report.{events_in};
ghost use Rattle.kq_system.specs.Beginning.{kqueue_in, live_named, place_named};
ghost use Rattle.kq_system.specs.SystemState.{system_of};

use crate::verdict::Call;
use indexmap::IndexSet;
use kq_model::{Event, Memory, Named, Reply};
use kq_system::System;
use std::alloc::Global;

/// The kqueues whose order is open, by the places at which they were made.
#[derive(Drop)]
pub(crate) struct OpenOrders {
    pub(crate) places: IndexSet<u64>,
}

impl OpenOrders {
    /// None so far.
    pub(crate) fn new(alloc: Global) -> Self
        ensures { result.places.keys ≡ [] }
    {
        OpenOrders {
            places: IndexSet::new(alloc),
        }
    }

    /// Whether the order of this kqueue is open.
    pub(crate) fn has(&self, kqueue: Option<u64>) -> bool
        ensures { result ≡ is_open kqueue self.now.places.keys }
    {
        match kqueue {
            Some(place) => self.places.contains(&place),
            None => false,
        }
    }

    /// One kqueue more, where one was opened.
    pub(crate) fn add(&mut self, opened: Option<u64>) -> Result<(), Memory>
        ensures { OnOk result (self.new.places.keys ≡ open_with opened self.old.places.keys) }
    {
        match opened {
            Some(place) => {
                self.places.insert(place)?;
                Ok(())
            }
            None => Ok(()),
        }
    }
}

/// The kqueue that a descriptor is, by the place at which it was made.
#[tactic(auto, unfolding(kq_system::specs::Beginning::kqueue_in))]
fn kqueue_in(named: Option<Named>) -> Option<u64>
    ensures { result ≡ kqueue_in named }
{
    match named? {
        Named::Kqueue(place) => Some(place),
        _ => None,
    }
}

/// The kqueue that a number of a process names.
pub(crate) fn place_named(system: &System, pid: u32, fd: u32) -> Option<u64>
    ensures { result ≡ place_named pid fd (system_of system.now) }
{
    kqueue_in(system.world().descriptor(pid, fd))
}

/// The kqueue that a record calls.
pub(crate) fn kqueue_of(event: &Event, system: &System) -> Option<u64>
    ensures { result ≡ kqueue_of event.now (system_of system.now) }
{
    match event {
        Event::Kevent { pid, fd, .. } => place_named(system, *pid, *fd),
        _ => None,
    }
}

/// How many keys wait in the kqueue of a call.
pub(crate) fn waiting_in(system: &System, call: Call) -> usize
    ensures { result ≡ waiting_of (live_named call.pid call.fd (system_of system.now)) }
{
    match system.kqueue(call.pid, call.fd) {
        Some(kq) => kq.waiting_len(),
        None => 0,
    }
}

/// How many events a reply has.
#[tactic(auto, unfolding(kq_model::specs::Report::events_in))]
pub(crate) fn events_in(reply: &Reply) -> usize
    ensures { result ≡ events_in reply.now }
{
    match reply {
        Reply::Events(events) => events.len(),
        _ => 0,
    }
}

/// Whether a call with this room returned so many of those that waited, and could have returned others.
fn leaves_some(room: u32, waiting: usize, returned: usize) -> bool
    ensures { result ≡ leaves_some room waiting returned }
{
    let room = room as usize;
    0 < room && returned == room && room < waiting
}

/// The kqueue of such a call, where it could have returned others.
pub(crate) fn opened_of(
    kqueue: Option<u64>,
    room: u32,
    waiting: usize,
    returned: usize,
) -> Option<u64>
    ensures { result ≡ (if leaves_some room waiting returned then kqueue else None) }
{
    if leaves_some(room, waiting, returned) {
        kqueue
    } else {
        None
    }
}
