//! The counter's table. Word 0 is CLAIM, the next number to be drawn.
use crate::view::View;
use atomic_table::{Seat, Table, TableRule};
use std::alloc::Global;

pub const CLAIM: usize = 0;

/// The rule of the table, which is told how many numbers there are to hand out.
pub struct Handing;

impl TableRule<(), View, u64> for Handing {
    ghost use Rattle.kq_jobs.specs.Handing.{HandsOut, newcomer};

    ghost holds = { λ count. HandsOut count };

    ghost first = { λ count. newcomer count };
}

/// The table, which the counter owns.
pub type CounterTable = Table<(), View, u64, Handing, Global>;

/// The right to step on the table.
pub type Token = Seat<(), View>;
