//! The text of the report: a line for each row, and a last line that counts.
ghost use Rattle.std.specs.Prelude.{◌≡◌, IfOk};
ghost use Rattle.kq_model.specs.Report.{report};

mod bound;
mod chunks;
mod event;
mod line;
mod lines;
mod text;

pub use bound::{answer_bound, room_of};
pub use chunks::TextChunks;
use kq_model::{Memory, Row};
pub use line::{put_counts, put_reply, write_reply_at};
use std::alloc::Global;
pub use text::{ReportText, calls_in, events_in};

/// The report of these rows, out of so many records: a line for each row, and a last line that
/// counts calls, events and records. Memory: a growth was refused, or the text would be longer than memory can be.
pub fn report_text(alloc: Global, rows: &[Row], records: u64) -> Result<Vec<u8>, Memory>
    ensures { IfOk result (λ text. text.items ≡ report rows.now records) }
{
    let mut text = ReportText::new(alloc);
    for row in rows {
        text = text.with_row(row.at, &row.reply)?;
    }
    text.end(records)
}
