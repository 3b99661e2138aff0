//! The rows of impossible records, which belong to no kqueue.

ghost use Rattle.std.specs.Prelude.{◌≡◌, ◌++◌, OnOk};
ghost use Rattle.kq_projection.specs.Plain.{plain_row};

use kq_model::{Memory, Reply, Row, Why};

/// Adds the row of the record at a place, if it is impossible.
pub fn put_plain(plain: &mut Vec<Row>, at: u64, verdict: &Result<(), Why>) -> Result<(), Memory>
    ensures { OnOk result (plain.new.items ≡ plain.old.items ++ plain_row at verdict.now) }
{
    match verdict {
        Ok(()) => Ok(()),
        Err(why) => {
            let reply = Reply::Impossible(*why);
            Ok(plain.push(Row { at, reply })?)
        }
    }
}
