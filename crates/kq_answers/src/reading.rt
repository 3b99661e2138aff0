//! All lines of answers.

ghost use Rattle.std.specs.Prelude.{◌≡◌, IfErr, IfOk};
ghost use Rattle.kq_answers.specs.Answers.{Good, answers_in};
ghost use Rattle.kq_answers.specs.Read.{IsBadLine, IsBadNext, IsTaken, Says};

use crate::answer::{Answer, AnswerLine};
use crate::fault::{AnswerFault, AnswersError};
use crate::line::answer_on;
use kq_model::Series;
use kq_trace::first_line;
use std::alloc::Global;

/// The answers that a text has, by rising place. The first line that is bad is `Bad`; `Memory` says nothing of the
/// text. A line feed ends a line, one at the end of the text adds none, and empty text has none.
pub fn read_answers(alloc: Global, text: &[u8]) -> Result<Series<Answer>, AnswersError>
    ensures good { IfOk result (λ answers. answers_in text.now ≡ Good answers) }
    ensures bad { IfErr result (IsBadLine (answers_in text.now)) }
{
    let mut answers = Vec::new(alloc);
    let mut number = 1;
    let mut before = 0;
    let mut rest = text;
    'lines: while !rest.is_empty() {
        let (line, behind) = first_line(rest);
        match take_line(alloc, number, before, line, &mut answers) {
            Ok(later) => before = later,
            Err(error) => return Err(error),
        }
        number += 1;
        rest = behind;
    }
    Ok(Series::from_vec(answers))
}

/// Puts the answer on a line behind the others, if it has one: the place behind which the next one stands.
fn take_line(
    alloc: Global,
    number: u64,
    before: u64,
    line: &[u8],
    answers: &mut Vec<Answer>,
) -> Result<u64, AnswersError>
    ensures taken { IfOk result (λ later. IsTaken number before line.now answers.old.items later answers.new.items) }
    ensures bad { IfErr result (IsBadNext number before line.now) }
{
    match next_answer(alloc, number, before, line)? {
        Some(answer) => {
            let at = answer.at;
            answers.push(answer).map_err(|_| AnswersError::Memory)?;
            Ok(at)
        }
        None => Ok(before),
    }
}

/// The answer on the line of a number behind the answer of a place, or none where the line counts.
fn next_answer(
    alloc: Global,
    number: u64,
    before: u64,
    line: &[u8],
) -> Result<Option<Answer>, AnswersError>
    ensures said { IfOk result (Says number before line.now) }
    ensures bad { IfErr result (IsBadNext number before line.now) }
{
    match answer_on(alloc, number, line)? {
        Ok(AnswerLine::Answer(answer)) => {
            if before < answer.at {
                Ok(Some(answer))
            } else {
                Err(AnswersError::Bad {
                    line: number,
                    fault: AnswerFault::Order,
                })
            }
        }
        Ok(AnswerLine::Counts) => Ok(None),
        Err(fault) => Err(AnswersError::Bad {
            line: number,
            fault: AnswerFault::Line(fault),
        }),
    }
}
