//! The answers that a program recorded, read line by line as a report has them.
#![tactic(auto)]

mod answer;
mod fault;
mod given;
mod line;
mod reading;

pub use answer::{Answer, AnswerLine, Given};
pub use fault::{AnswerFault, AnswersError};
pub use line::answer_on;
pub use reading::read_answers;
