//! All files that ever were, deleted ones too, by their numbers.

ghost use Rattle.std.specs.Prelude.{◌≡◌, ℕ, true, ◌+◌, ◌≤◌, None, OnOk, IfSome};
ghost use Rattle.std.specs.Option.{option_copied};
ghost use Rattle.kq_model.specs.Objects.{counted, told_at};
ghost use Rattle.kq_objects.specs.ByPlace.{object_at, room_in};
ghost use Rattle.kq_objects.specs.Files.{file_at, room_on};
ghost use Rattle.kq_objects.specs.Fits.{FitsFileAt, made_file, opened_at, opened_on};

use crate::by_place::ByPlace;
use crate::file::File;
use kq_model::{FileRecord, Memory};
use std::alloc::Global;

/// The files that ever were, by their numbers.
#[derive(Drop)]
pub struct Files {
    table: ByPlace<File>,
    alloc: Global,
}

impl Files {
    pub fn new(alloc: Global) -> Self
        ensures { (q : ℕ) → file_at result q ≡ None }
    {
        Files {
            table: ByPlace::new(alloc),
            alloc,
        }
    }

    /// Makes room for one more, of this number.
    pub fn reserve(&mut self, number: u32) -> Result<(), Memory>
        ensures same { (q : ℕ) → file_at self.new q ≡ file_at self.old q }
        ensures room { OnOk result (1 ≤ room_in self.new.table) }
        ensures kept { room_in self.old.table ≤ room_in self.new.table }
        ensures room_on { (q : ℕ) → room_on q self.old ≤ room_on q self.new }
    {
        self.table.reserve(u64::from(number))
    }

    /// Makes room for one more open description of a file.
    pub fn reserve_on(&mut self, number: u32) -> Result<(), Memory>
        ensures same { (q : ℕ) → file_at self.new q ≡ file_at self.old q }
        ensures room { OnOk result (IfSome (file_at self.new number) (λ _. 1 ≤ room_on number self.new)) }
        ensures kept { room_in self.old.table ≤ room_in self.new.table }
        ensures room_on { (q : ℕ) → room_on q self.old ≤ room_on q self.new }
    {
        let Some(key) = self.table.key_of(u64::from(number)) else {
            return Ok(());
        };
        match self.table.slab.get_mut(key) {
            Some(placed) => placed.object.reserve(),
            None => Ok(()),
        }
    }

    pub fn get(&self, number: u32) -> Option<&File>
        ensures { option_copied result ≡ object_at self.now.table number }
    {
        self.table.get(u64::from(number))
    }

    /// Notes one more record of a file, which is there from its first record on.
    pub fn tell(&mut self, number: u32, told: FileRecord)
        requires fits { FitsFileAt told (file_at self.old number) }
        requires room { made_file told ≤ room_in self.old.table }
        requires room_on { opened_on told ≤ room_on number self.old }
        ensures done { (q : ℕ) → file_at self.new q
            ≡ told_at counted.files (λ _. true) number told (file_at self.old) q }
        ensures room { room_in self.old.table ≤ room_in self.new.table + made_file told }
        ensures room_on { (q : ℕ) → room_on q self.old ≤ room_on q self.new + opened_at q number told }
    {
        let Some(key) = self.table.key_of(u64::from(number)) else {
            self.make(number, told);
            return;
        };
        if let Some(placed) = self.table.slab.get_mut(key) {
            placed.object.tell(told);
        }
    }

    /// Notes the first record of a file.
    fn make(&mut self, number: u32, told: FileRecord)
        requires absent { object_at self.old.table number ≡ None }
        requires fits { FitsFileAt told None }
        requires room { made_file told ≤ room_in self.old.table }
        ensures done { (q : ℕ) → file_at self.new q
            ≡ told_at counted.files (λ _. true) number told (file_at self.old) q }
        ensures room { room_in self.old.table ≤ room_in self.new.table + made_file told }
        ensures room_on { (q : ℕ) → room_on q self.old ≤ room_on q self.new + opened_at q number told }
    {
        let mut file = File::unmade(self.alloc);
        file.tell(told);
        self.table.put(u64::from(number), file);
    }
}
