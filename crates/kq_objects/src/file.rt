//! One file: its size, whether it was deleted, and its open descriptions.

ghost use Rattle.std.specs.Prelude.{◌≡◌, ◌+◌, ◌≤◌, OnOk};
ghost use Rattle.kq_model.specs.Files.{no_file, file_after};
ghost use Rattle.kq_model.specs.Limits.{most_file_size};
ghost use Rattle.kq_model.specs.declared.doing.FileRecord.TheVariants as file;
ghost use Rattle.kq_objects.specs.Fits.{FitsFile, opened_on};

use kq_model::{FileRecord, Memory};
use std::alloc::Global;
use std::marker::Model;

/// What is kept of one file. Contracts see its quantities, and the room for further descriptions.
#[derive(Drop)]
pub struct File {
    size: u64,
    deleted: bool,
    /// The places of its open descriptions, in the order in which they were opened.
    descriptions: Vec<u64>,
}

impl Model for File {
    ghost use Rattle.std.specs.Prelude.{◌-◌, ◌≤◌};
    ghost use Rattle.std.specs.Vec.{vec_len, vec_capacity};
    ghost use Rattle.kq_model.specs.Limits.{most_file_size};
    ghost use Rattle.kq_objects.specs.Kept.{FileKept};

    ghost Value = { FileKept };

    ghost view = { λ f. record {
      state = record { size = f.size; deleted = f.deleted; descriptions = f.descriptions.items };
      room = vec_capacity f.descriptions - vec_len f.descriptions;
    } };

    ghost invariant = { λ f. f.size ≤ most_file_size };
}

impl File {
    /// A file of which nothing is noted yet.
    pub fn unmade(alloc: Global) -> Self
        ensures { result.state ≡ no_file }
    {
        File {
            size: 0,
            deleted: false,
            descriptions: Vec::new(alloc),
        }
    }

    /// Makes room for one more open description.
    pub fn reserve(&mut self) -> Result<(), Memory>
        ensures same { self.new.state ≡ self.old.state }
        ensures room { OnOk result (1 ≤ self.new.room) }
        ensures kept { self.old.room ≤ self.new.room }
    {
        Ok(self.descriptions.reserve(1)?)
    }

    /// Notes one more record.
    #[tactic(auto, unfolding(kq_model::specs::Files::file_after))]
    pub fn tell(&mut self, told: FileRecord)
        requires fits { FitsFile told self.old.state }
        requires room { opened_on told ≤ self.old.room }
        ensures state { self.new.state ≡ file_after told self.old.state }
        ensures room { self.old.room ≤ self.new.room + opened_on told }
    {
        match told {
            FileRecord::Made { size } => self.size = size,
            FileRecord::Sized { size } => self.size = size,
            FileRecord::Reached { end } => self.size = self.size.max(end),
            FileRecord::Deleted => self.deleted = true,
            FileRecord::Opened { description } => self.descriptions.push_reserved(description),
            FileRecord::Left { description } => self.leave(description),
        }
    }

    /// The description of this place is no longer open.
    fn leave(&mut self, description: u64)
        ensures state { self.new.state ≡ file_after (file.Left description) self.old.state }
        ensures room { self.old.room ≤ self.new.room }
    {
        self.descriptions.retain(|place| *place != description);
    }

    /// In bytes.
    pub fn size(&self) -> u64
        ensures exact { result ≡ self.now.state.size }
        ensures within { result ≤ most_file_size }
    {
        self.size
    }

    pub fn is_deleted(&self) -> bool
        ensures { result ≡ self.now.state.deleted }
    {
        self.deleted
    }

    /// The places of its open descriptions, in the order in which they were opened.
    pub fn descriptions(&self) -> &[u64]
        ensures { result.now ≡ self.now.state.descriptions }
    {
        self.descriptions.as_slice()
    }
}
