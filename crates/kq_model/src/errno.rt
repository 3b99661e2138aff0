//! The errors with which kevent(2) fails, and FreeBSD's numbers of them.

ghost use Rattle.std.specs.Prelude.{◌≡◌};
ghost use Rattle.kq_model.specs.Errno.{error_number};

/// The errors with which a change, or a whole kevent call, is refused; see intro(2).
#[derive(Debug, Drop, Clone, Copy, PartialEq, Eq)]
pub enum Errno {
    /// No such knote.
    ENOENT,
    /// No such process.
    ESRCH,
    /// The number names no open descriptor.
    EBADF,
    /// A filter, flag or parameter that is not allowed.
    EINVAL,
}

impl Errno {
    /// FreeBSD's number of this error: 2, 3, 9 or 22.
    pub fn code(self) -> u32
        ensures { result ≡ error_number self }
    {
        match self {
            Errno::ENOENT => 2,
            Errno::ESRCH => 3,
            Errno::EBADF => 9,
            Errno::EINVAL => 22,
        }
    }
}
