//! What each step on the table tells the seat that takes it, for the prover alone.
ghost use Rattle.kq_jobs.specs.Handing.{Draws, Settles, giving, given, joined, spent};

use crate::view::View;
use atomic_table::{Join, Play, Split};

/// The addition that draws a number.
pub struct Draw;

impl Play<(), View> for Draw {
    ghost then = { Draws };
}

/// A load of CLAIM after two seats were joined.
pub struct Settle;

impl Play<(), View> for Settle {
    ghost then = { Settles };
}

/// How a seat gives one of its parts to a new seat.
pub struct OnePart;

impl Split<View> for OnePart {
    ghost left = { giving };

    ghost right = { given };
}

/// How two seats are made one.
pub struct Merge;

impl Join<View> for Merge {
    ghost both = { joined };

    ghost spent = { spent };
}
