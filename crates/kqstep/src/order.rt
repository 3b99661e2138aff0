//! The words of the command line.
ghost use Rattle.std.specs.Prelude.{◌≡◌, map};
ghost use Rattle.kqstep.specs.Words.{order_of};

use kq_step::Fault;

/// What the program is asked for.
#[derive(Debug, Drop, Clone, Copy, PartialEq, Eq)]
pub enum Order {
    /// To answer the records of standard input.
    Answers,
    /// To say what it does.
    Help,
}

/// The order that the words behind the program's name give: none at all, or `--help`. All others are
/// [`Fault::Usage`].
pub fn order_of(words: &[&str]) -> Result<Order, Fault>
    ensures { result ≡ order_of (map (λ word. word.now) words.now) }
{
    if words.is_empty() {
        return Ok(Order::Answers);
    }
    if words.len() == 1 && words[0] == "--help" {
        return Ok(Order::Help);
    }
    Err(Fault::Usage)
}
