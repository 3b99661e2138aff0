//! What a look gives for an event: fflags, data, and whether it says EOF.

use std::marker::Model;

/// What a filter sees where its condition holds, for the event that it gives (kqueue(2), struct
/// kevent).
#[derive(Debug, Drop, Clone, Copy)]
pub struct Seen {
    /// The filter's own flags.
    pub fflags: u32,
    /// The filter's own number, the manual's data.
    pub datum: i64,
    /// The event says EOF.
    pub eof: bool,
}

impl Model for Seen {
    ghost use Rattle.kq_model.specs.Look as model;

    ghost Value = { model.Seen };

    ghost view = { λ s. record { fflags = s.fflags; datum = s.datum; eof = s.eof } };

    ghost inverse = { λ s. record { fflags = s.fflags; datum = s.datum; eof = s.eof } };
}
