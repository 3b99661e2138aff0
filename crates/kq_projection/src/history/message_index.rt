//! All that records say to kqueues, of which the items of some sources can be picked.

ghost use Rattle.std.specs.Prelude.{◌≡◌, ◌<◌, All, List, filter, length, map, IfOk, OnOk};
ghost use Rattle.std.specs.List.{IsDistinct};
ghost use Rattle.kq_projection.specs.Children.{child_told, children_at, children_of, is_of_process, AreReached};
ghost use Rattle.kq_projection.specs.Children.{AreWithChildren};
ghost use Rattle.kq_projection.specs.Items.{is_from, source_eq};
ghost use Rattle.kq_projection.specs.MessageIndex.{all_standing, comes_from, item_at, standing};
ghost use Rattle.kq_projection.specs.Sources.{Begins, Grows};
ghost use Rattle.kq_projection.specs.declared.history.item.Source.{Source};

use crate::history::item::{Item, Source, What};
use crate::history::posting_lists::PostingLists;
use crate::history::sources::Sources;
use kq_model::{Hint, Memory, Target};
use std::alloc::Global;
use std::marker::Model;

/// All that the records of a trace say to kqueues, in order. Contracts see the list of its items.
#[derive(Drop)]
pub struct MessageIndex {
    items: Vec<Item>,
    /// Where the items of each source stand.
    postings: PostingLists,
}

impl Model for MessageIndex {
    ghost use Rattle.std.specs.Prelude.{List};
    ghost use Rattle.kq_projection.specs.declared.history.item.Item.{Item as Declared};
    ghost use Rattle.kq_projection.specs.MessageIndex.{AreIndexed};

    ghost Value = { List Declared };

    ghost view = { λ l. l.items.items };

    ghost invariant = { λ l. AreIndexed l.items.items l.postings.table };
}

impl MessageIndex {
    /// These items, of which those of each source can be found. Its cost is theirs. Memory: a growth was refused.
    pub fn of(items: Vec<Item>) -> Result<Self, Memory>
        ensures { IfOk result (λ log. log ≡ items.items) }
    {
        let mut postings = PostingLists::new(*items.allocator());
        for (number, item) in items.iter().enumerate() {
            postings.add(item.what.source(), number)?;
        }
        Ok(MessageIndex { items, postings })
    }

    /// What its memory is from.
    fn allocator(&self) -> Global {
        *self.items.allocator()
    }

    /// The item that stands there.
    fn get(&self, number: usize) -> Item
        requires { number < length self.now }
        ensures { result ≡ item_at self.now number }
    {
        self.items[number]
    }

    /// Where the items of a source stand, rising.
    fn at(&self, source: Source) -> &[usize]
        ensures { result.now ≡ standing (comes_from source) 0 self.now }
    {
        self.postings.at(source)
    }

    /// Where the items of these sources stand, source by source.
    fn numbers_of(&self, sources: &[Source]) -> Result<Vec<usize>, Memory>
        ensures { IfOk result (λ numbers. numbers.items ≡ all_standing self.now sources.now) }
    {
        let mut numbers = Vec::new(self.allocator());
        for source in sources {
            let standing = self.at(*source);
            numbers.extend_from_slice(standing)?;
        }
        Ok(numbers)
    }

    /// The items that stand there.
    fn items_at(&self, numbers: &[usize]) -> Result<Vec<Item>, Memory>
        requires { All (λ n. n < length self.now) numbers.now }
        ensures { IfOk result (λ picked. picked.items ≡ map (item_at self.now) numbers.now) }
    {
        let mut picked = Vec::with_capacity(self.allocator(), numbers.len())?;
        for number in numbers {
            picked.push(self.get(*number))?;
        }
        Ok(picked)
    }

    /// The items that come from these sources, in their order. Its cost is that of a sort of their numbers.
    pub fn pick(&self, sources: &[Source]) -> Result<Vec<Item>, Memory>
        requires { IsDistinct source_eq sources.now }
        ensures { IfOk result (λ picked. picked.items ≡ filter (is_from sources.now) self.now) }
    {
        let mut numbers = self.numbers_of(sources)?;
        numbers.sort()?;
        self.items_at(numbers.as_slice())
    }

    /// The sources with those of the processes that descend from theirs, by what the items say of
    /// forks. It costs the items of these processes, which are among those that are picked.
    pub fn with_children(&self, named: &[Source]) -> Result<Sources, Memory>
        ensures { IfOk result (λ all. AreWithChildren self.now named.now all.set.keys) }
    {
        let mut all = Sources::of(self.allocator(), named)?;
        for next in 0..usize::MAX {
            let Some(source) = all.get(next) else {
                return Ok(all);
            };
            self.add_children(&mut all, source)?;
        }
        Err(Memory)
    }

    /// The items that come from these sources, and where children are asked for from those of the processes that
    /// descend from theirs. Else nothing tells of these, and no fork is read.
    pub fn pick_reached(&self, children: bool, named: &[Source]) -> Result<Vec<Item>, Memory>
        requires { IsDistinct source_eq named.now }
        ensures { IfOk result (λ picked. (all : List Source) × AreReached children self.now named.now all
            × (picked.items ≡ filter (is_from all) self.now)) }
    {
        if !children {
            return self.pick(named);
        }
        let all = self.with_children(named)?;
        self.pick(all.as_slice())
    }

    /// The children of which the items of a source tell.
    fn add_children(&self, all: &mut Sources, source: Source) -> Result<(), Memory>
        ensures grows { OnOk result (Grows (children_of self.now source) all.old all.new) }
        ensures begins { OnOk result (Begins all.old.set.keys all.new.set.keys) }
    {
        if !is_of_process(source) {
            return Ok(());
        }
        self.add_told(all, self.at(source))
    }

    /// The children of which the items at these places tell.
    fn add_told(&self, all: &mut Sources, numbers: &[usize]) -> Result<(), Memory>
        requires { All (λ n. n < length self.now) numbers.now }
        ensures grows { OnOk result (Grows (children_at self.now numbers.now) all.old all.new) }
        ensures begins { OnOk result (Begins all.old.set.keys all.new.set.keys) }
    {
        for number in numbers {
            let item = self.get(*number);
            all.add_target(child_told(item.what))?;
        }
        Ok(())
    }
}

/// Whether the items of a source can tell of children.
#[tactic(auto, unfolding(crate::specs::Children::is_of_process))]
fn is_of_process(source: Source) -> bool
    ensures { result ≡ is_of_process source }
{
    match source {
        Source::Of(Target::Process(_)) => true,
        _ => false,
    }
}

/// The child of which an item tells.
#[tactic(auto, unfolding(crate::specs::Children::child_told))]
fn child_told(what: What) -> Option<Target>
    ensures { result ≡ child_told what }
{
    match what {
        What::Told {
            target: Target::Process(_),
            hint: Hint::Child(child),
        } => Some(Target::Process(child)),
        _ => None,
    }
}
