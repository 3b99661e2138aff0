//! One answer of a report, with the place of the record that it answers.

ghost use Rattle.std.specs.Prelude.{◌≡◌, IfOk};

use crate::{Memory, Reply};

/// One row of a report: the reply to the record at a place, counted from 1.
#[derive(Drop)]
pub struct Row {
    pub at: u64,
    pub reply: Reply,
}

impl Row {
    /// An equal row.
    pub fn copy(&self) -> Result<Self, Memory>
        ensures { IfOk result (λ copied. copied ≡ self.now) }
    {
        Ok(Row {
            at: self.at,
            reply: self.reply.copy()?,
        })
    }
}
