//! What is wrong with a line of answers, and why answers were not read.

ghost use Rattle.std.specs.Prelude.{◌≡◌};

use kq_model::{LineFault, Memory};

/// What is wrong with a line of answers.
#[derive(Debug, Drop, Clone, Copy, PartialEq, Eq)]
pub enum AnswerFault {
    /// It is no line of a report: no JSON value, not just the members of such a line, or a number outside its type.
    Line(LineFault),
    /// Its place does not stand behind the place of the answer before.
    Order,
    /// Its place is that of no call, or of no record.
    NoCall,
}

impl AnswerFault {
    ghost use Rattle.kq_answers.specs.Answers.{answer_fault_name};

    /// The name that a program prints.
    pub fn name(self) -> &'static str
        ensures { result.now ≡ answer_fault_name self }
    {
        match self {
            AnswerFault::Line(fault) => fault.name(),
            AnswerFault::Order => "Order",
            AnswerFault::NoCall => "NoCall",
        }
    }
}

/// Why answers were not read.
#[derive(Debug, Drop, Clone, Copy, PartialEq, Eq)]
pub enum AnswersError {
    /// There was no memory left to read them in.
    Memory,
    /// A line is bad: the first such line, counted from 1.
    Bad { line: u64, fault: AnswerFault },
}

impl From<Memory> for AnswersError {
    ghost use Rattle.kq_answers.specs.declared.fault.AnswersError.TheVariants.{Memory};

    ghost from_gives = { λ _ error. error ≡ Memory };

    fn from(_memory: Memory) -> AnswersError {
        AnswersError::Memory
    }
}
