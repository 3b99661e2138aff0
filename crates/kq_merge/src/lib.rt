//! The rows of many kqueues put in order by place, and the text of their report.
#![tactic(auto)]

mod merging;
mod report;

pub use merging::merge;
pub use report::{
    ReportText, TextChunks, answer_bound, calls_in, events_in, put_counts, put_reply, report_text,
    room_of, write_reply_at,
};
