//! A worker's place at the counter, by which it draws the numbers of jobs.

use crate::rule::Token;
use std::marker::Model;

/// A worker's place at one counter. Which numbers it claimed exists in proofs alone.
#[derive(Drop)]
pub struct ClaimSeat {
    /// The right to step on the counter's table.
    pub(crate) token: Token,
    /// All numbers were handed out when it last asked.
    pub(crate) done: bool,
}

impl Model for ClaimSeat {
    ghost use Rattle.std.specs.Prelude.{◌≡◌, ◌<◌, [], true, false};
    ghost use Rattle.kq_jobs.specs.Claims.{Claiming};
    ghost use Rattle.kq_jobs.specs.Handing.{claimed};

    ghost Value = { Claiming };

    ghost view = { λ s. record {
      counter = record {
        table = s.token.table_id;
        count = s.token.me.0.count;
      };
      parts = s.token.me.0.parts;
      numbers = claimed s.token.me.0;
      done = s.done;
    } };

    ghost invariant = { λ s.
        (s.token.me.1 ≡ []) × (0 < s.token.me.0.parts)
        × (s.done ≡ true → 0 < s.token.me.0.past)
        × (s.done ≡ false → s.token.me.0.past ≡ 0) };
}
