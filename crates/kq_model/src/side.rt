//! To read or to write: the two sides of a socket, and the two ends of a pipe.

ghost use Rattle.std.specs.Prelude.{◌≡◌};
ghost use Rattle.kq_model.specs.Names.{side_name};

/// A side of a socket, or an end of a pipe.
#[derive(Debug, Drop, Clone, Copy, PartialEq, Eq)]
pub enum Side {
    Read,
    Write,
}

impl Side {
    /// The name by which a trace spells it.
    pub fn name(self) -> &'static str
        ensures { result.now ≡ side_name self }
    {
        match self {
            Side::Read => "read",
            Side::Write => "write",
        }
    }
}
