//! The plans of the records about files by their numbers, and the limits of sizes.

ghost use Rattle.std.specs.Prelude.{◌≡◌, ◌≤◌, ◌∷◌, [], ◌++◌, None, Some, IfOk, IfSome, List};
ghost use Rattle.std.specs.Option.{option_map, option_copied};
ghost use Rattle.kq_model.specs.FilePlans.{file_amount, noted, readable_each, extending, plan_file, present, plan_open};
ghost use Rattle.kq_model.specs.FilePlans.{plan_truncate, sized, plan_note, deletion};
ghost use Rattle.kq_model.specs.Limits.{most_file_size};
ghost use Rattle.kq_model.specs.NoteBits.{bit_of};
ghost use Rattle.kq_model.specs.declared.doing.Doing.{Doing};
ghost use Rattle.kq_objects.specs.ByPlace.{object_at};
ghost use Rattle.kq_objects.specs.Files.{file_at};
ghost use Rattle.kq_objects.specs.Kept.{FileKept};
ghost use Rattle.kq_objects.specs.Objects.{objects_of, IsPlanned, IsReady};
ghost use Rattle.kq_objects.specs.Plans.{in_turn};

use crate::file::File;
use crate::note_bits::bit_of;
use crate::objects::Objects;
use crate::{Plan, PlanError};
use kq_model::notes::{NOTE_ATTRIB, NOTE_EXTEND, NOTE_OPEN};
use kq_model::{DescriptionRecord, Doing, FileRecord, Hint, Memory, Mode, Note, Target, Why};
use std::alloc::Global;

/// The greatest size of a file, and the greatest offset, in bytes.
pub const MOST_FILE_SIZE: u64 = 1 << 61;

/// A size or an offset, if it is within the limits.
#[tactic(auto, unfolding(kq_model::specs::FilePlans::file_amount))]
pub fn file_amount(amount: i64) -> Option<u64>
    ensures exact { result ≡ file_amount amount }
    ensures within { IfSome result (λ n. n ≤ most_file_size) }
{
    if amount < 0 {
        return None;
    }
    let amount = amount as u64;
    if amount <= MOST_FILE_SIZE {
        Some(amount)
    } else {
        None
    }
}

#[tactic(auto, unfolding(kq_model::specs::FilePlans::noted))]
pub fn noted(number: u32, bits: u32) -> (Target, Hint)
    ensures { result ≡ noted number bits }
{
    (Target::File(number), Hint::Note(bits))
}

/// The bits, with EXTEND where the file grows.
#[tactic(auto, unfolding(kq_model::specs::FilePlans::extending))]
pub fn extending(bits: u32, grows: bool) -> u32
    requires { bits ≤ 1024 }
    ensures { result ≡ extending bits grows }
{
    if grows { bits + NOTE_EXTEND } else { bits }
}

/// Each of these open descriptions is readable, and then one hint more: the first of the hints, and
/// those behind.
pub fn hints_to(
    alloc: Global,
    descriptions: &[u64],
    last: (Target, Hint),
) -> Result<((Target, Hint), Vec<(Target, Hint)>), Memory>
    ensures { IfOk result (λ hints. hints.0 ∷ hints.1.items ≡ readable_each descriptions.now ++ last ∷ []) }
{
    let [first, others @ ..] = descriptions else {
        return Ok((last, Vec::new(alloc)));
    };
    let mut hints = Vec::with_capacity(alloc, descriptions.len())?;
    for place in others {
        hints.push((Target::Open(*place), Hint::Readable))?;
    }
    hints.push(last)?;
    Ok(((Target::Open(*first), Hint::Readable), hints))
}

/// What is noted of a file: a deletion, and of all else nothing.
#[tactic(auto, unfolding(kq_model::specs::FilePlans::deletion))]
fn deletion(number: u32, note: Note) -> Option<Doing>
    ensures { in_turn result [] ≡ deletion number note }
{
    match note {
        Note::Delete => Some(Doing::ToFile {
            file: number,
            told: FileRecord::Deleted,
        }),
        Note::Attrib | Note::Link | Note::Rename | Note::Revoke => None,
    }
}

impl Objects {
    #[tactic(auto, unfolding(crate::proofs::Unfolded::making_file))]
    #[inline(never)]
    pub(crate) fn plan_file(&mut self, number: u32, size: i64) -> Result<Plan, PlanError>
        ensures same { objects_of self.new ≡ objects_of self.old }
        ensures plan { IsPlanned result (plan_file number size (objects_of self.old)) }
        ensures ready { IfOk result (λ p. IsReady p.doings self.new) }
        ensures stays { (ds : List Doing) → IsReady ds self.old → IsReady ds self.new }
    {
        if self.files.get(number).is_some() {
            return Err(PlanError::Why(Why::UsedFile));
        }
        let Some(size) = file_amount(size) else {
            return Err(PlanError::Why(Why::TooMany));
        };
        self.reserve_file(number)?;
        let told = FileRecord::Made { size };
        let doing = Doing::ToFile { file: number, told };
        Ok(Plan::of_one(self.alloc, doing, Target::File(number), None))
    }

    /// A file that is there and not deleted.
    #[tactic(auto, unfolding(kq_model::specs::FilePlans::present))]
    fn present(&self, number: u32) -> Option<&File>
        ensures exact { option_map (λ (kept : FileKept). kept.state) (option_copied result)
            ≡ present (file_at self.now.files number) }
        ensures there { IfSome result (λ kept. file_at self.now.files number ≡ Some kept.now.state) }
    {
        let file = self.files.get(number)?;
        if file.is_deleted() { None } else { Some(file) }
    }

    #[tactic(auto, unfolding(kq_model::specs::FilePlans::plan_open, kq_model::specs::FilePlans::opened))]
    #[inline(never)]
    pub(crate) fn plan_open(
        &mut self,
        place: u64,
        number: u32,
        mode: Mode,
    ) -> Result<Plan, PlanError>
        requires { object_at self.old.descriptions place ≡ None }
        ensures same { objects_of self.new ≡ objects_of self.old }
        ensures plan { IsPlanned result (plan_open place number mode (objects_of self.old)) }
        ensures ready { IfOk result (λ p. IsReady p.doings self.new) }
        ensures stays { (ds : List Doing) → IsReady ds self.old → IsReady ds self.new }
    {
        let Some(_present) = self.present(number) else {
            return Err(PlanError::Why(Why::Absent));
        };
        self.reserve_open(place, number)?;
        let opened = Doing::ToDescription {
            place,
            told: DescriptionRecord::Opened { file: number, mode },
        };
        let listed = Doing::ToFile {
            file: number,
            told: FileRecord::Opened { description: place },
        };
        let hint = noted(number, NOTE_OPEN);
        Ok(Plan::of_two(self.alloc, opened, listed, hint)?)
    }

    #[tactic(auto, unfolding(crate::proofs::Unfolded::truncating))]
    #[inline(never)]
    pub(crate) fn plan_truncate(&self, number: u32, size: i64) -> Result<Plan, PlanError>
        ensures plan { IsPlanned result (plan_truncate number size (objects_of self.now)) }
        ensures ready { IfOk result (λ p. IsReady p.doings self.now) }
    {
        let Some(file) = self.present(number) else {
            return Err(PlanError::Why(Why::Absent));
        };
        let Some(size) = file_amount(size) else {
            return Err(PlanError::Why(Why::TooMany));
        };
        let last = noted(number, extending(NOTE_ATTRIB, file.size() < size));
        let (told, hints) = hints_to(self.alloc, file.descriptions(), last)?;
        let sized = Doing::ToFile {
            file: number,
            told: FileRecord::Sized { size },
        };
        Ok(Plan::of(Some(sized), Vec::new(self.alloc), told, hints))
    }

    #[tactic(auto, unfolding(kq_model::specs::FilePlans::plan_note, kq_model::specs::FilePlans::said))]
    #[inline(never)]
    pub(crate) fn plan_note(&self, number: u32, note: Note) -> Result<Plan, PlanError>
        ensures plan { IsPlanned result (plan_note number note (objects_of self.now)) }
        ensures ready { IfOk result (λ p. IsReady p.doings self.now) }
    {
        let Some(_present) = self.present(number) else {
            return Err(PlanError::Why(Why::Absent));
        };
        let told = noted(number, bit_of(note));
        let (rest, hints) = (Vec::new(self.alloc), Vec::new(self.alloc));
        Ok(Plan::of(deletion(number, note), rest, told, hints))
    }
}
