//! The plans of seeks, reads and writes by open file descriptions.

ghost use Rattle.std.specs.Prelude.{◌≡◌, ◌∷◌, IfOk};
ghost use Rattle.kq_model.specs.FilePlans.{plan_seek, read_file, write_file, grows, reached};
ghost use Rattle.kq_objects.specs.ByPlace.{object_at};
ghost use Rattle.kq_objects.specs.Objects.{objects_of, IsPlanned, IsReady};

use crate::file_plans::{MOST_FILE_SIZE, extending, file_amount, hints_to, noted};
use crate::objects::Objects;
use crate::{Plan, PlanError};
use kq_model::notes::{NOTE_READ, NOTE_WRITE};
use kq_model::{DescriptionRecord, Doing, FileRecord, Hint, Memory, Named, Target, Why};

/// Whether a write of so many bytes up to this end makes the file greater.
#[tactic(auto, unfolding(kq_model::specs::FilePlans::grows))]
fn grows(size: u64, bytes: u32, end: u64) -> bool
    ensures { result ≡ grows size bytes end }
{
    bytes != 0 && size < end
}

impl Objects {
    #[tactic(auto, unfolding(crate::proofs::Unfolded::seeking))]
    #[inline(never)]
    pub(crate) fn plan_seek(&self, on: Named, offset: i64) -> Result<Plan, PlanError>
        ensures plan { IsPlanned result (plan_seek on offset (objects_of self.now)) }
        ensures ready { IfOk result (λ p. IsReady p.doings self.now) }
    {
        let Named::Open {
            description: place,
            ..
        } = on
        else {
            return Err(PlanError::Why(Why::WrongKind));
        };
        if self.descriptions.get(place).is_none() {
            return Err(PlanError::Why(Why::WrongKind));
        }
        let Some(offset) = file_amount(offset) else {
            return Err(PlanError::Why(Why::TooMany));
        };
        let doing = Doing::ToDescription {
            place,
            told: DescriptionRecord::Sought { offset },
        };
        Ok(Plan::of_one(self.alloc, doing, Target::Open(place), Some(Hint::Readable)))
    }

    #[tactic(auto, unfolding(crate::proofs::Unfolded::reading))]
    pub(crate) fn read_file(&self, place: u64, bytes: u32) -> Result<Plan, PlanError>
        ensures plan { IsPlanned result
            (read_file place bytes (object_at self.now.descriptions place) (objects_of self.now)) }
        ensures ready { IfOk result (λ p. IsReady p.doings self.now) }
    {
        let Some(description) = self.descriptions.get(place) else {
            return Err(PlanError::Why(Why::WrongKind));
        };
        if !description.may_read() {
            return Err(PlanError::Why(Why::WrongKind));
        }
        let number = description.file();
        let left = self.size_of(number).saturating_sub(description.offset());
        if left < u64::from(bytes) {
            return Err(PlanError::Why(Why::TooMany));
        }
        let doing = Doing::ToDescription {
            place,
            told: DescriptionRecord::Moved { bytes },
        };
        let hint = Hint::Note(NOTE_READ);
        Ok(Plan::of_one(self.alloc, doing, Target::File(number), Some(hint)))
    }

    /// What is noted of a file where so many bytes were written up to this end: of none, nothing.
    #[tactic(auto, unfolding(kq_model::specs::FilePlans::reached))]
    fn reached(&self, number: u32, bytes: u32, end: u64) -> Result<Vec<Doing>, Memory>
        ensures { IfOk result (λ doings. doings.items ≡ reached number bytes end) }
    {
        if bytes == 0 {
            return Ok(Vec::new(self.alloc));
        }
        let reached = Doing::ToFile {
            file: number,
            told: FileRecord::Reached { end },
        };
        Ok(vec![in self.alloc; reached]?)
    }

    #[tactic(auto, unfolding(kq_model::specs::FilePlans::write_file, kq_model::specs::FilePlans::written))]
    #[inline(never)]
    pub(crate) fn write_file(&self, place: u64, bytes: u32) -> Result<Plan, PlanError>
        ensures plan { IsPlanned result
            (write_file place bytes (object_at self.now.descriptions place) (objects_of self.now)) }
        ensures ready { IfOk result (λ p. IsReady p.doings self.now) }
    {
        let Some(description) = self.descriptions.get(place) else {
            return Err(PlanError::Why(Why::WrongKind));
        };
        if !description.may_write() {
            return Err(PlanError::Why(Why::WrongKind));
        }
        let end = description.offset() + u64::from(bytes);
        if MOST_FILE_SIZE < end {
            return Err(PlanError::Why(Why::TooMany));
        }
        let number = description.file();
        let Some(file) = self.files.get(number) else {
            return Err(PlanError::Why(Why::WrongKind));
        };
        let bits = extending(NOTE_WRITE, grows(file.size(), bytes, end));
        let (told, hints) = hints_to(self.alloc, file.descriptions(), noted(number, bits))?;
        let moved = Doing::ToDescription {
            place,
            told: DescriptionRecord::Moved { bytes },
        };
        let reached = self.reached(number, bytes, end)?;
        Ok(Plan::of(Some(moved), reached, told, hints))
    }
}
