//! The private list of one kqueue: those items of a trace that concern it.

ghost use Rattle.std.specs.Prelude.{◌≡◌};
ghost use Rattle.kq_projection.specs.Private.{IsPrivate};

use crate::history::item::Item;
use crate::history::split::Split;

/// What of a trace concerns one kqueue: its private list, item by item.
#[derive(Drop)]
pub struct Private<'s, 'a> {
    pub(crate) split: &'s Split<'a>,
    pub(crate) kqueue: u64,
    pub(crate) owner: u32,
    pub(crate) items: Vec<Item>,
    ghost own: { IsPrivate split.now kqueue owner items.items },
}

impl<'s, 'a> Private<'s, 'a> {
    /// The place where the kqueue was made.
    pub fn kqueue(&self) -> u64
        ensures { result ≡ self.now.kqueue }
    {
        self.kqueue
    }

    /// The process that owns it.
    pub fn owner(&self) -> u32
        ensures { result ≡ self.now.owner }
    {
        self.owner
    }

    /// The items, by rising place, and at each place in the record's order.
    pub fn items(&self) -> &[Item]
        ensures { result.now ≡ self.now.items.items }
    {
        self.items.as_slice()
    }

    /// The split that it is a part of.
    pub fn split(&self) -> &'s Split<'a>
        ensures { result.now ≡ self.now.split.now }
    {
        self.split
    }
}
