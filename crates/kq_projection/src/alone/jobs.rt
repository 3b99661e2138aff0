//! The kqueues of a trace as jobs: each replay is one, by number in order of birth.

use crate::alone::replay::Replay;
use crate::history::Split;
use kq_jobs::Jobs;
use kq_model::{Memory, Rows};

/// The kqueues of a trace as jobs: the one with a number is to be replayed, in the order of birth.
#[derive(Clone, Copy)]
pub struct KqueueJobs<'s, 'a> {
    pub split: &'s Split<'a>,
}

impl<'s, 'a> Jobs for KqueueJobs<'s, 'a> {
    ghost use Rattle.std.specs.Prelude.{length, slice_index};
    ghost use Rattle.kq_projection.specs.Traced.{places_of};
    ghost use Rattle.kq_projection.specs.Replayed.{IsReplayed};

    type Outcome = Rows;

    ghost count = { λ jobs. length (places_of jobs.split.now) };

    ghost gives = { λ jobs n rows. IsReplayed jobs.split.now (slice_index (places_of jobs.split.now) n) rows };

    fn len(&self) -> u32 {
        self.split.kqueue_count()
    }

    fn run(&self, number: u32) -> Result<Rows, Memory> {
        let kqueue = self.split.kqueues()[number as usize];
        self.split.private(kqueue)?.replay()
    }
}
