//! The world after the record of a place, as kqueues look at it.

use crate::history::split::Split;
use kq_model::{Named, Target, View, Views};

/// The world after the record of a place, as kqueues see it.
#[derive(Drop, Clone, Copy)]
pub struct HistoryAt<'s, 'a> {
    pub(crate) split: &'s Split<'a>,
    pub(crate) place: u64,
}

impl<'s, 'a> Views for HistoryAt<'s, 'a> {
    ghost use Rattle.kq_projection.specs.Traced.{seen_at};

    ghost sees = { λ h. seen_at h.split.now h.place };

    fn view(&self, target: Target) -> Option<View> {
        self.split.view(self.place, target)
    }

    fn descriptor(&self, pid: u32, number: u32) -> Option<Named> {
        self.split.descriptor(self.place, pid, number)
    }

    fn now(&self) -> i64 {
        self.split.now(self.place)
    }
}
