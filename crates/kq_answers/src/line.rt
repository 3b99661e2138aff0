//! A line of answers by itself.

ghost use Rattle.std.specs.Prelude.{◌≡◌, IfOk};
ghost use Rattle.serde_json.specs.View.{view};
ghost use Rattle.kq_answers.specs.Again.{RowsAreReadAgain};
ghost use Rattle.kq_answers.specs.AnswerText.{answer_in, answer_on, answered_at, has_place, is_counts};

use crate::answer::{Answer, AnswerLine, Given};
use crate::given::given_in;
use kq_model::{LineFault, Memory};
use kq_trace::{is_whole_at, line_value, u64_at, width};
use serde_json::Value;
use std::alloc::Global;

/// What the line of this number says, without its line feed, or its fault: `Json`, `Field` or `Range`.
#[tactic(auto, unfolding(crate::specs::AnswerText::answer_on, crate::specs::AnswerText::answer_of))]
pub fn answer_on(
    alloc: Global,
    number: u64,
    line: &[u8],
) -> Result<Result<AnswerLine, LineFault>, Memory>
    ensures answer { IfOk result (λ answer. answer ≡ answer_on number line.now) }

    // Of a row of a report it is what the row says.
    ensures again { RowsAreReadAgain number line.now }
{
    match line_value(alloc, line)? {
        Some(value) => answer_in(alloc, number, &value),
        None => Ok(Err(LineFault::Json)),
    }
}

#[tactic(auto, unfolding(crate::specs::AnswerText::answer_in))]
fn answer_in(
    alloc: Global,
    number: u64,
    value: &Value,
) -> Result<Result<AnswerLine, LineFault>, Memory>
    ensures { IfOk result (λ answer. answer ≡ answer_in number (view value.now)) }
{
    if is_counts(value) {
        return Ok(Ok(AnswerLine::Counts));
    }
    if !has_place(value) {
        return Ok(Err(LineFault::Field));
    }
    Ok(answered_at(number, u64_at(value, "at"), given_in(alloc, value)?))
}

/// What was given at a place, where that is in range.
#[tactic(auto, unfolding(crate::specs::AnswerText::answered_at))]
fn answered_at(
    number: u64,
    place: Option<u64>,
    given: Result<Given, LineFault>,
) -> Result<AnswerLine, LineFault>
    ensures { result ≡ answered_at number place given }
{
    let given = given?;
    match place {
        Some(at) => Ok(AnswerLine::Answer(Answer {
            line: number,
            at,
            given,
        })),
        None => Err(LineFault::Range),
    }
}

/// Whether the line is the one that ends a report.
#[tactic(auto, unfolding(crate::specs::AnswerText::is_counts))]
fn is_counts(value: &Value) -> bool
    ensures { result ≡ is_counts (view value.now) }
{
    is_whole_at(value, "calls")
        && is_whole_at(value, "events")
        && is_whole_at(value, "records")
        && width(value) == 3
}

/// Whether the line has a place, and one member more.
#[tactic(auto, unfolding(crate::specs::AnswerText::has_place))]
fn has_place(value: &Value) -> bool
    ensures { result ≡ has_place (view value.now) }
{
    is_whole_at(value, "at") && width(value) == 2
}
