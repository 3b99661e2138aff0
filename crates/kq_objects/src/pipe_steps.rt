//! What a record comes to at one pipe: the first reason against it, or what is noted.

ghost use Rattle.std.specs.Prelude.{◌≡◌, IfOk};
ghost use Rattle.kq_model.specs.PipeSteps.{read_pipe, write_pipe};
ghost use Rattle.kq_objects.specs.Fits.{IsPipeNoteOn};

use crate::pipe::Pipe;
use kq_model::{Hint, PipeRecord, Why};

/// What is noted of a pipe, with the hint for its knotes, or why the record is impossible.
pub type PipeStep = Result<(PipeRecord, Option<Hint>), Why>;

impl Pipe {
    #[tactic(auto, unfolding(kq_model::specs::PipeSteps::read_pipe))]
    pub fn read(&self, bytes: u32) -> PipeStep
        ensures exact { result ≡ read_pipe bytes self.now }
        ensures fits { IfOk result (λ step. IsPipeNoteOn step.0 self.now) }
    {
        if self.bytes < bytes {
            return Err(Why::TooMany);
        }
        Ok((PipeRecord::Read { bytes }, Some(Hint::Writable)))
    }

    #[tactic(auto, unfolding(kq_model::specs::PipeSteps::write_pipe))]
    pub fn write(&self, bytes: u32) -> PipeStep
        ensures exact { result ≡ write_pipe bytes self.now }
        ensures fits { IfOk result (λ step. IsPipeNoteOn step.0 self.now) }
    {
        if !self.has_reader() {
            return Err(Why::WrongKind);
        }
        if self.space() < i64::from(bytes) {
            return Err(Why::TooMany);
        }
        Ok((PipeRecord::Written { bytes }, Some(Hint::Readable)))
    }
}
