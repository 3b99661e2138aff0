//! What a call answers, as one number: 0, an errno, a reason or a refusal.

ghost use Rattle.std.specs.Prelude.{◌≡◌};
ghost use Rattle.kq_freebsd.specs.Answers.{number_of, reason_number, refusal_number};

use crate::refusal::Refusal;
use kq_model::{Errno, Reply, Why};

/// The number of what a call of the library answers: 0, an errno of kevent(2), the number of a reason, or that of a
/// refusal.
pub fn number_of(answer: &Result<Reply, Refusal>) -> i32
    ensures { result ≡ number_of answer.now }
{
    match answer {
        Ok(Reply::Done) => 0,
        Ok(Reply::Events(_)) => 0,
        Ok(Reply::Failed(Errno::ENOENT)) => 2,
        Ok(Reply::Failed(Errno::ESRCH)) => 3,
        Ok(Reply::Failed(Errno::EBADF)) => 9,
        Ok(Reply::Failed(Errno::EINVAL)) => 22,
        Ok(Reply::Impossible(why)) => reason_number(*why),
        Err(refusal) => refusal_number(*refusal),
    }
}

/// The number of a reason why a record is impossible, 101 to 109.
pub fn reason_number(why: Why) -> i32
    ensures { result ≡ reason_number why }
{
    match why {
        Why::NoProcess => 101,
        Why::UsedPid => 102,
        Why::NoDescriptor => 103,
        Why::UsedDescriptor => 104,
        Why::WrongKind => 105,
        Why::Absent => 106,
        Why::UsedFile => 107,
        Why::ClockBack => 108,
        Why::TooMany => 109,
    }
}

/// The number of a refusal: 12, FreeBSD's ENOMEM, for memory; 201 and 202.
pub fn refusal_number(refusal: Refusal) -> i32
    ensures { result ≡ refusal_number refusal }
{
    match refusal {
        Refusal::Memory => 12,
        Refusal::Argument => 201,
        Refusal::Full => 202,
    }
}
