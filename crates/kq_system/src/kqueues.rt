//! All live kqueues, with what finds those that a record concerns.

ghost use Rattle.std.specs.Prelude.{◌≡◌, [], None};

use crate::index::Index;
use crate::live::Live;
use indexmap::IndexMap;
use kq_model::Target;
use std::alloc::Global;
use std::marker::Model;

/// The live kqueues in order of birth, and by whom and what a record concerns them.
#[derive(Drop)]
pub struct Kqueues {
    pub(crate) live: IndexMap<u64, Live>,
    /// Those of each process, by its pid.
    pub(crate) owned: Index<u32>,
    /// Those that may have knotes of a target.
    pub(crate) watching: Index<Target>,
    /// How many records were shown to those that they concern.
    pub(crate) round: u64,
    /// The place and the process of a birth for which there is room.
    pub(crate) ready: Option<(u64, u32)>,
}

impl Model for Kqueues {
    ghost use Rattle.indexmap.specs.IndexMap.{spare};
    ghost use Rattle.kq_system.specs.Showing.{AreFound, LiveKqueues};

    ghost Value = { LiveKqueues };

    ghost view = { λ k. record { entries = k.live.entries; ready = k.ready } };

    ghost invariant = { λ k.
        AreFound k.live.entries (spare k.live) k.ready k.owned.table k.watching.table k.round };
}

impl Kqueues {
    /// No kqueue.
    pub fn new(alloc: Global) -> Self
        ensures { result.entries ≡ [] }
    {
        Kqueues {
            live: IndexMap::new(alloc),
            owned: Index::new(alloc),
            watching: Index::new(alloc),
            round: 0,
            ready: None,
        }
    }
}
