//! Whether a file is opened to read, to write or both, as a trace says it.

ghost use Rattle.std.specs.Prelude.{◌≡◌};
ghost use Rattle.kq_model.specs.Names.{mode_name};

/// What a file was opened for; see open(2).
#[derive(Debug, Drop, Clone, Copy, PartialEq, Eq)]
pub enum Mode {
    Read,
    Write,
    ReadWrite,
}

impl Mode {
    /// The name by which a trace spells it.
    pub fn name(self) -> &'static str
        ensures { result.now ≡ mode_name self }
    {
        match self {
            Mode::Read => "r",
            Mode::Write => "w",
            Mode::ReadWrite => "rw",
        }
    }
}
