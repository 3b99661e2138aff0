//! The lines of rows that waited.

ghost use Rattle.std.specs.Prelude.{◌≡◌, ◌++◌, IfOk, List};
ghost use Rattle.kq_merge.specs.Written.{written};
ghost use Rattle.kq_model.specs.declared.row.Row.{Row};
ghost use Rattle.kq_shares.specs.Whole.{AreRowsOf};

use kq_merge::{ReportText, merge};
use kq_model::{Memory, Row, Rows};
use std::alloc::Global;

/// The text with the lines of these rows.
pub fn with_rows(mut text: ReportText, rows: Vec<Row>) -> Result<ReportText, Memory>
    ensures { IfOk result (λ after. (before : List Row) → text ≡ written before
        → after ≡ written (before ++ rows.items)) }
{
    for row in rows.as_slice() {
        text = text.with_row(row.at, &row.reply)?;
    }
    Ok(text)
}

/// The text with the lines of the rows of several shares, by place.
pub fn with_lists(alloc: Global, text: ReportText, lists: Vec<Rows>) -> Result<ReportText, Memory>
    ensures { IfOk result (λ after. (before rows : List Row) → text ≡ written before → AreRowsOf lists.items rows
        → after ≡ written (before ++ rows)) }
{
    with_rows(text, merge(alloc, lists, &[])?)
}
