//! The versions of the trace's format.

ghost use Rattle.std.specs.Prelude.{◌≡◌};
ghost use Rattle.kq_model.specs.Limits.{IsVersion};

use std::marker::Model;

/// A version of the trace's format, by whose rules a kqueue goes: 1 or 2. Contracts see its number.
#[derive(Debug, Drop, Clone, Copy, PartialEq, Eq)]
pub struct Version {
    number: u32,
}

impl Model for Version {
    ghost use Rattle.std.specs.Prelude.{ℕ};
    ghost use Rattle.kq_model.specs.Limits.{IsVersion};

    ghost Value = { ℕ };

    ghost view = { λ v. v.number };

    ghost invariant = { λ v. IsVersion v.number };

    ghost inverse = { λ n. record { number = n } };
}

impl Version {
    /// The version of this number, which is 1 or 2.
    pub fn new(number: u32) -> Version
        requires { IsVersion number }
        ensures { result ≡ number }
    {
        Version { number }
    }

    /// Its number, 1 or 2.
    pub fn number(self) -> u32
        ensures exact { result ≡ self }
        ensures known { IsVersion result }
    {
        self.number
    }
}
