//! What a kqueue is made of, what always holds of it, and its room for further knotes.

ghost use Rattle.std.specs.Prelude.{◌≡◌, ◌<◌, OnOk, OnErr, max};
ghost use Rattle.kq_model.specs.Kqueue.{HaveOwnKeys, IsSound, empty_kqueue};

use kq_knote::Knotes;
use kq_model::{Memory, Version};
use std::alloc::Global;
use std::marker::Model;

/// One kqueue: what is registered in it, and the queue of what is to be returned (kqueue(2);
/// Lemon 2001). The queue holds each knote that is active and enabled once, and nothing else.
#[derive(Drop)]
pub struct Kq {
    pub(crate) owner: u32,
    pub(crate) version: Version,
    pub(crate) knotes: Knotes,
}

impl Model for Kq {
    ghost use Rattle.kq_model.specs.Kqueue.{IsSound};
    ghost use Rattle.kq_kevent.specs.Owned.{OwnedKqueue, kqueue_in};

    ghost Value = { OwnedKqueue };

    ghost view = { λ k. record {
      kq = kqueue_in k.knotes;
      owner = k.owner;
      version = k.version;
      room = k.knotes.room;
    } };

    ghost invariant = { λ k. IsSound (kqueue_in k.knotes) };
}

impl Kq {
    /// An empty kqueue of the process with the pid `owner`, by the rules of version 1 of the trace
    /// format.
    pub fn new(alloc: Global, owner: u32) -> Self
        ensures kq { result.kq ≡ empty_kqueue }
        ensures owner { result.owner ≡ owner }
        ensures version { result.version ≡ 1 }
        ensures room { result.room ≡ 0 }
    {
        Kq::in_version(alloc, owner, Version::new(1))
    }

    /// An empty kqueue of the process with the pid `owner`, by the rules of this version of the trace format.
    pub fn in_version(alloc: Global, owner: u32, version: Version) -> Self
        ensures kq { result.kq ≡ empty_kqueue }
        ensures owner { result.owner ≡ owner }
        ensures version { result.version ≡ version }
        ensures room { result.room ≡ 0 }
    {
        Kq {
            owner,
            version,
            knotes: Knotes::new(alloc),
        }
    }

    /// The pid of the process whose kqueue this is.
    pub fn owner(&self) -> u32
        ensures { result ≡ self.now.owner }
    {
        self.owner
    }

    /// What is registered, in order of registration; no two have one key.
    pub fn knotes(&self) -> &Knotes
        ensures knotes { result.now.knotes ≡ self.now.kq.knotes }
        ensures own_keys { HaveOwnKeys self.now.kq.knotes }
        // Of every kqueue.
        ensures sound { IsSound self.now.kq }
    {
        &self.knotes
    }

    /// How many further knotes can be registered without memory.
    pub fn room(&self) -> usize
        ensures { result ≡ self.now.room }
    {
        self.knotes.room()
    }

    /// Makes the room at least `changes`; changes nothing else. After `Memory` nothing has changed.
    pub fn reserve(&mut self, changes: usize) -> Result<(), Memory>
        ensures kq { self.new.kq ≡ self.old.kq }
        ensures owner { self.new.owner ≡ self.old.owner }
        ensures version { self.new.version ≡ self.old.version }
        ensures room { OnOk result (self.new.room ≡ max self.old.room changes) }
        ensures err { OnErr result (self.new.room ≡ self.old.room) }

        // Memory comes only where the room was missing.
        ensures missing { OnErr result (self.old.room < changes) }
    {
        self.reserve_for(changes, 0)
    }

    /// Makes the room at least `changes`, of which so many may be timers. For these alone the alarms take
    /// memory.
    pub(crate) fn reserve_for(&mut self, changes: usize, timers: usize) -> Result<(), Memory>
        ensures kq { self.new.kq ≡ self.old.kq }
        ensures owner { self.new.owner ≡ self.old.owner }
        ensures version { self.new.version ≡ self.old.version }
        ensures room { OnOk result (self.new.room ≡ max self.old.room changes) }
        ensures err { OnErr result (self.new.room ≡ self.old.room) }
        ensures missing { OnErr result (self.old.room < changes) }
    {
        self.knotes.reserve_timers(timers);
        self.knotes.reserve(changes)
    }
}
