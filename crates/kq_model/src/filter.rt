//! The filters of kqueue(2), also those that are not simulated, and how a trace spells them.

ghost use Rattle.std.specs.Prelude.{◌≡◌};
ghost use Rattle.kq_model.specs.Names.{filter_name};

/// The filters of kqueue(2) by their names without `EVFILT_`.
#[derive(Debug, Drop, Clone, Copy, PartialEq, Eq, Hash)]
pub enum Filter {
    Read,
    Write,
    Vnode,
    Proc,
    Signal,
    Timer,
    User,
    Aio,
    Lio,
    Fs,
    Procdesc,
    Sendfile,
    Empty,
}

impl Filter {
    /// The name by which a trace and a report spell it.
    pub fn name(self) -> &'static str
        ensures { result.now ≡ filter_name self }
    {
        match self {
            Filter::Read => "READ",
            Filter::Write => "WRITE",
            Filter::Vnode => "VNODE",
            Filter::Proc => "PROC",
            Filter::Signal => "SIGNAL",
            Filter::Timer => "TIMER",
            Filter::User => "USER",
            Filter::Aio => "AIO",
            Filter::Lio => "LIO",
            Filter::Fs => "FS",
            Filter::Procdesc => "PROCDESC",
            Filter::Sendfile => "SENDFILE",
            Filter::Empty => "EMPTY",
        }
    }
}
