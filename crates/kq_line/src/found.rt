//! What was read of an object.

ghost use Rattle.std.specs.Prelude.{◌≡◌, [], false};

use crate::piece::Member;
use arrayvec::ArrayVec;
use kq_model::Change;
use std::alloc::Global;

/// The most members that an object may have to be read here: no record and no change has more.
pub const MOST_MEMBERS: usize = 8;

/// What was read of an object: its members, and beside them the items of its list of changes, if it has one.
#[derive(Drop)]
pub struct Found<'a> {
    pub members: ArrayVec<Member<'a>, MOST_MEMBERS>,
    pub changes: Vec<Change>,
    pub has_changes: bool,
}

impl<'a> Found<'a> {
    /// Nothing yet.
    pub fn new(alloc: Global) -> Self {
        Found {
            members: ArrayVec::new(),
            changes: Vec::new(alloc),
            has_changes: false,
        }
    }

    /// Makes room for the next object.
    pub fn clear(&mut self)
        ensures members { self.new.members.items ≡ [] }
        ensures changes { self.new.has_changes ≡ false }
    {
        self.members.clear();
        self.changes.clear();
        self.has_changes = false;
    }
}
