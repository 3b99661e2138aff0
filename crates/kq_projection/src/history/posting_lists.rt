//! A list of numbers for each source: where its items stand in the log.

ghost use Rattle.std.specs.Prelude.{◌≡◌, ◌++◌, ◌∷◌, [], IfOk, OnOk};
ghost use Rattle.kq_projection.specs.Items.{source_eq};
ghost use Rattle.kq_projection.specs.PostingLists.{postings_at, posting};
ghost use Rattle.kq_projection.specs.declared.history.item.Source.{Source as Declared};

use crate::history::item::Source;
use kq_model::Memory;
use std::alloc::Global;
use std::collections::HashMap;
use std::marker::Model;

/// A list of numbers for each source; an empty one for a source under which nothing was put.
#[derive(Drop)]
pub struct PostingLists {
    pub(crate) table: HashMap<Source, PostingList>,
    alloc: Global,
}

/// Numbers in the order in which they came.
#[derive(Drop)]
pub struct PostingList {
    numbers: Vec<usize>,
}

impl Model for PostingList {
    ghost use Rattle.std.specs.Prelude.{ℕ, List};

    ghost Value = { List ℕ };

    ghost view = { λ s. s.numbers.items };
}

impl PostingList {
    /// One number alone.
    fn one(alloc: Global, number: usize) -> Result<Self, Memory>
        ensures { IfOk result (λ s. s ≡ number ∷ []) }
    {
        let mut numbers = Vec::new(alloc);
        numbers.push(number)?;
        Ok(PostingList { numbers })
    }

    fn as_slice(&self) -> &[usize]
        ensures { result.now ≡ self.now }
    {
        self.numbers.as_slice()
    }

    /// One number more.
    fn add(&mut self, number: usize) -> Result<(), Memory>
        ensures { OnOk result (self.new ≡ self.old ++ number ∷ []) }
    {
        Ok(self.numbers.push(number)?)
    }
}

impl PostingLists {
    /// Nothing under any source.
    pub fn new(alloc: Global) -> Self
        ensures { (source : Declared) → postings_at result.table source ≡ [] }
    {
        PostingLists {
            table: HashMap::new(alloc),
            alloc,
        }
    }

    /// The numbers under a source.
    pub fn at(&self, source: Source) -> &[usize]
        ensures { result.now ≡ postings_at self.now.table source }
    {
        match self.table.get(&source) {
            Some(list) => list.as_slice(),
            None => &[],
        }
    }

    /// Puts a number under a source, behind those that are there. After Memory nothing is known.
    pub fn add(&mut self, source: Source, number: usize) -> Result<(), Memory>
        ensures { OnOk result ((other : Declared) → postings_at self.new.table other
            ≡ postings_at self.old.table other ++ posting (source_eq source other) number) }
    {
        match self.table.get_mut(&source) {
            Some(list) => list.add(number),
            None => {
                let list = PostingList::one(self.alloc, number)?;
                self.table.insert(source, list)?;
                Ok(())
            }
        }
    }
}
