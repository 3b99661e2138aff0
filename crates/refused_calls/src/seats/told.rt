//! What the calls of a live system told.

use crate::Outcome;
use crate::fault::Fault;
use kq_live::{Book, LiveReceipt};
use kq_merge::{ReportText, report_text};
use kq_trace::write_trace;
use std::alloc::Global;

/// What the calls told so far.
#[derive(Drop)]
pub struct Told {
    /// For each call a line: its place, and how many calls its seat had seen.
    receipts: String,
    /// The rows of the replies.
    report: ReportText,
    calls: u64,
    /// How many calls were made again.
    again: u64,
}

impl Told {
    pub fn new(alloc: Global) -> Told {
        Told {
            receipts: String::new(alloc),
            report: ReportText::new(alloc),
            calls: 0,
            again: 0,
        }
    }

    /// What the calls told, after one that is made again.
    pub fn with_refusal(self) -> Told {
        let again = self.again.saturating_add(1);
        Told { again, ..self }
    }

    /// What the calls told, with the receipt of a further one.
    pub fn with(self, receipt: &LiveReceipt) -> Result<Told, Fault> {
        let Told {
            mut receipts,
            report,
            calls,
            again,
        } = self;
        writeln!(receipts, "{} after {}", receipt.at, receipt.seen_len)?;
        let report = report.with_row(receipt.at, &receipt.answer)?;
        Ok(Told {
            receipts,
            report,
            calls: calls.saturating_add(1),
            again,
        })
    }

    /// The receipts, the report of the replies, the book as a trace, and the report of the book.
    pub fn end(self, alloc: Global, book: &Book) -> Result<Outcome, Fault> {
        let Told {
            receipts,
            report,
            calls,
            again,
        } = self;
        let mut text = receipts.into_bytes();
        text.extend_from_slice(report.end(calls)?.as_slice())?;
        text.extend_from_slice(write_trace(alloc, &book.trace()?)?.as_slice())?;
        let rows = book.rows()?;
        text.extend_from_slice(report_text(alloc, rows.as_slice(), book.len() as u64)?.as_slice())?;
        Ok(Outcome { text, again })
    }
}
