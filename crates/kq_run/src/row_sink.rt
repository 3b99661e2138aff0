//! Where the rows of a fold go.

ghost use Rattle.std.specs.Prelude.{◌++◌, IfOk, List};
ghost use Rattle.kq_model.specs.declared.row.Row.{Row};
ghost use Rattle.kq_model.specs.System.{row_of};

use kq_merge::ReportText;
use kq_model::{Memory, Reply, Row};

/// Takes the rows of a fold, one after the other.
pub trait RowSink {
    // These rows it took.
    ghost took: { Self → List Row → Type 0 };

    /// With the row of the reply to the record at a place, if it has one.
    fn with_reply(self, at: u64, reply: Reply) -> Result<Self, Memory>
        ensures { IfOk result (λ after. (rows : List Row) → took self rows
            → took after (rows ++ row_of at reply)) };
}

/// Writes the line of each row at once.
impl RowSink for ReportText {
    ghost use Rattle.std.specs.Prelude.{◌≡◌};
    ghost use Rattle.kq_merge.specs.Written.{written};

    ghost took = { λ text rows. text ≡ written rows };

    fn with_reply(self, at: u64, reply: Reply) -> Result<Self, Memory> {
        self.with_row(at, &reply)
    }
}

/// Keeps the rows.
impl RowSink for Vec<Row> {
    ghost use Rattle.std.specs.Prelude.{◌≡◌};

    ghost took = { λ kept rows. kept.items ≡ rows };

    fn with_reply(mut self, at: u64, reply: Reply) -> Result<Self, Memory> {
        match reply {
            Reply::Done => Ok(self),
            reply => {
                self.push(Row { at, reply })?;
                Ok(self)
            }
        }
    }
}
