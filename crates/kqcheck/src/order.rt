//! The words of the command line.

use crate::fault::Fault;
use crate::words::{Asked, Expects, asked_by};
use kq_judge::Ignored;
use std::alloc::Global;

/// What the program is asked for. A file by the name `-` is standard input.
#[derive(Drop)]
pub enum Order {
    /// To hold answers against a trace.
    Check {
        trace: String,
        answers: String,
        /// Members that are not compared.
        ignored: Vec<Ignored>,
        /// Whether impossible records are passed over.
        permits: bool,
    },
    /// To explain the call at a place.
    Explain {
        at: u64,
        trace: String,
        permits: bool,
    },
    /// To say what it does.
    Help,
}

/// The order that the words behind the program's name give: `[--permit-impossible] [--ignore FILTER.MEMBER].. TRACE
/// ANSWERS`, of which one file at most is `-`, or `[--permit-impossible] --explain PLACE TRACE`, or `--help`. All
/// others are [`Fault::Usage`].
pub fn order_of(alloc: Global, words: &[&str]) -> Result<Order, Fault> {
    if words.len() == 1 && words[0] == "--help" {
        return Ok(Order::Help);
    }
    let mut asked = Asked::new(alloc);
    for word in words {
        asked_by(alloc, &mut asked, *word)?;
    }
    match asked.expects {
        Expects::Word => ordered(asked),
        _ => Err(Fault::Usage),
    }
}

/// The order, once all words were taken.
fn ordered(asked: Asked) -> Result<Order, Fault> {
    let Asked {
        explains,
        ignored,
        permits,
        trace,
        answers,
        ..
    } = asked;
    match (explains, trace, answers) {
        (None, Some(trace), Some(answers)) => {
            if trace.as_str() == "-" && answers.as_str() == "-" {
                return Err(Fault::Usage);
            }
            Ok(Order::Check {
                trace,
                answers,
                ignored,
                permits,
            })
        }
        (Some(at), Some(trace), None) if ignored.is_empty() => Ok(Order::Explain {
            at,
            trace,
            permits,
        }),
        _ => Err(Fault::Usage),
    }
}
