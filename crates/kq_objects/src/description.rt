//! One open file description: its file, mode and offset, and how many descriptors name it.

ghost use Rattle.std.specs.Prelude.{◌≡◌, ◌≤◌};
ghost use Rattle.kq_model.specs.Files.{is_description_held, may_read, may_write};
ghost use Rattle.kq_model.specs.Holding.{is_last};
ghost use Rattle.kq_model.specs.Limits.{most_file_size};
ghost use Rattle.kq_model.specs.Objects.{counted};
ghost use Rattle.kq_objects.specs.Fits.{FitsDescriptionAt, made_description};

use crate::object::Object;
use kq_model::{DescriptionRecord, Mode};
use std::marker::Model;

/// What is kept of one open file description. Contracts see its quantities.
#[derive(Drop, Clone, Copy)]
pub struct Description {
    file: u32,
    mode: Mode,
    offset: u64,
    holders: u64,
}

impl Model for Description {
    ghost use Rattle.std.specs.Prelude.{pos, unsigned_abs, ◌≤◌};
    ghost use Rattle.kq_model.specs.Files.{DescriptionState};
    ghost use Rattle.kq_model.specs.Limits.{most_file_size};

    ghost Value = { DescriptionState };

    ghost view = { λ d. record {
      file = d.file;
      mode = d.mode;
      offset = d.offset;
      holders = pos d.holders;
    } };

    ghost invariant = { λ d. d.offset ≤ most_file_size };

    ghost inverse = { λ v. record {
      file = v.file;
      mode = v.mode;
      offset = v.offset;
      holders = unsigned_abs v.holders;
    } };
}

impl Object for Description {
    type Record = DescriptionRecord;

    ghost book = { counted.descriptions };

    ghost stays = { is_description_held };

    ghost fits = { FitsDescriptionAt };

    ghost makes = { made_description };

    #[tactic(auto, unfolding(kq_model::specs::Files::description_after))]
    fn first(told: DescriptionRecord) -> Self {
        let DescriptionRecord::Opened { file, mode } = told else {
            unreachable!();
        };
        Description {
            file,
            mode,
            offset: 0,
            holders: 1,
        }
    }

    #[tactic(auto, unfolding(kq_model::specs::Files::description_after))]
    fn tell(&mut self, told: DescriptionRecord) {
        match told {
            DescriptionRecord::Opened { .. } => unreachable!(),
            DescriptionRecord::Moved { bytes } => self.offset += u64::from(bytes),
            DescriptionRecord::Sought { offset } => self.offset = offset,
            DescriptionRecord::Held => self.holders += 1,
            DescriptionRecord::Released => self.holders -= 1,
        }
    }

    fn is_held(&self) -> bool {
        self.holders > 0
    }
}

impl Description {
    /// The number of its file.
    pub fn file(&self) -> u32
        ensures { result ≡ self.now.file }
    {
        self.file
    }

    /// In bytes.
    pub fn offset(&self) -> u64
        ensures exact { result ≡ self.now.offset }
        ensures within { result ≤ most_file_size }
    {
        self.offset
    }

    /// Whether just one descriptor names it, or none.
    pub fn is_last(&self) -> bool
        ensures { result ≡ is_last self.now.holders }
    {
        self.holders <= 1
    }

    #[tactic(auto, unfolding(kq_model::specs::Files::may_read))]
    pub fn may_read(&self) -> bool
        ensures { result ≡ may_read self.now.mode }
    {
        match self.mode {
            Mode::Write => false,
            Mode::Read | Mode::ReadWrite => true,
        }
    }

    #[tactic(auto, unfolding(kq_model::specs::Files::may_write))]
    pub fn may_write(&self) -> bool
        ensures { result ≡ may_write self.now.mode }
    {
        match self.mode {
            Mode::Read => false,
            Mode::Write | Mode::ReadWrite => true,
        }
    }
}
