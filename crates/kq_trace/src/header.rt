//! The first line of a trace.

ghost use Rattle.std.specs.Prelude.{◌≡◌, ◌++◌, ℕ, IfErr, IfOk, IfSome, List, OnOk, Some, codes};
ghost use Rattle.std.specs.Prelude.{option_and_then};
ghost use Rattle.serde_json.specs.Find.{get};
ghost use Rattle.serde_json.specs.View.{view};
ghost use Rattle.kq_model.specs.Limits.{IsVersion};
ghost use Rattle.kq_model.specs.Lines.{lines_of};
ghost use Rattle.kq_model.specs.Reading.{header_version, json_of, read_lines, read_records, reading, version_in};
ghost use Rattle.kq_trace.specs.Faults.{IsFault};
ghost use Rattle.kq_trace.specs.Rest.{lines_behind};
ghost use Rattle.kq_trace.specs.Unread.{IsFaultAhead};

use crate::TraceError;
use crate::line::first_line;
use crate::member::has_just;
use crate::values::line_value;
use kq_model::limits::MOST_LINE_BYTES;
use kq_model::{LineFault, Memory};
use serde_json::Value;
use std::alloc::Global;

/// The number of the first line behind the header.
pub const FIRST_RECORD_LINE: u64 = 2;

/// The versions of the format that are read.
const FIRST_VERSION: u32 = 1;

const SECOND_VERSION: u32 = 2;

/// The version that a value is the number of.
fn version_in(value: &Value) -> Option<u32>
    ensures named { result ≡ version_in (view value.now) }
    ensures known { IfSome result IsVersion }
{
    match value.as_u64() {
        Some(number) => {
            if number == u64::from(FIRST_VERSION) {
                Some(FIRST_VERSION)
            } else if number == u64::from(SECOND_VERSION) {
                Some(SECOND_VERSION)
            } else {
                None
            }
        }
        None => None,
    }
}

/// The version that a member names.
fn version_at(value: &Value) -> Option<u32>
    ensures named { result ≡ option_and_then version_in (get (codes "kqsim") (view value.now)) }
    ensures known { IfSome result IsVersion }
{
    match value.get("kqsim") {
        Some(member) => version_in(member),
        None => None,
    }
}

/// The version that a value names as the header of a trace.
#[tactic(auto, unfolding(kq_model::specs::Reading::header_version))]
fn header_version(value: &Value) -> Option<u32>
    ensures named { result ≡ header_version (Some (view value.now)) }
    ensures known { IfSome result IsVersion }
{
    if has_just(value, &["kqsim"]) {
        version_at(value)
    } else {
        None
    }
}

/// The version that a line names as the header of a trace.
#[tactic(auto, unfolding(kq_model::specs::Reading::header_version))]
pub fn version_on_line(alloc: Global, line: &[u8]) -> Result<Option<u32>, Memory>
    ensures named { IfOk result (λ version. version ≡ header_version (json_of line.now)) }
    ensures known { IfOk result (λ version. IfSome version IsVersion) }
{
    match line_value(alloc, line)? {
        Some(value) => Ok(header_version(&value)),
        None => Ok(None),
    }
}

/// The version that the header of a text names, and what stands behind the line feed of the header. An error is that
/// of line 1, or `Memory`.
pub fn opened(alloc: Global, bytes: &[u8]) -> Result<(u32, &[u8]), TraceError>
    ensures meaning { IfOk result (λ r. reading bytes.now ≡ read_records r.0 2 (lines_behind r.1.now)) }
    ensures known { IfOk result (λ r. IsVersion r.0) }
    ensures bad { IfErr result (IsFault bytes.now) }
    // The same where more lines follow.
    ensures longer { IfOk result (λ r. (later : List (List ℕ))
        → read_lines (lines_of bytes.now ++ later) ≡ read_records r.0 2 (lines_behind r.1.now ++ later)) }
    ensures bad_longer { IfErr result (λ e. (later : List (List ℕ))
        → IsFaultAhead (read_lines (lines_of bytes.now ++ later)) e) }
{
    let (header, rest) = first_line(bytes);
    if header.len() > MOST_LINE_BYTES {
        return Err(TraceError::Bad {
            line: 1,
            fault: LineFault::TooLong,
        });
    }
    match version_on_line(alloc, header)? {
        Some(version) => Ok((version, rest)),
        None => Err(TraceError::Bad {
            line: 1,
            fault: LineFault::Header,
        }),
    }
}
