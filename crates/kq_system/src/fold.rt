//! A whole trace run through one system, and the rows of it.

ghost use Rattle.std.specs.Prelude.{◌≡◌, ◌++◌, IfOk, OnOk};
ghost use Rattle.kq_model.specs.ClosedNumbers.{AlwaysClosesAll};
ghost use Rattle.kq_model.specs.Hearing.{listed};
ghost use Rattle.kq_model.specs.Objects as objects;
ghost use Rattle.kq_model.specs.System.{empty_system, row_of, rows, rows_after};
ghost use Rattle.kq_model.specs.VersionOne as one;
ghost use Rattle.kq_model.specs.WatchedNumbers.{AlwaysWatchTheirNumbers};
ghost use Rattle.kq_system.specs.SystemState.{system_of};

use crate::System;
use kq_model::{Memory, Reply, Row, Trace};
use std::alloc::Global;

impl System {
    /// The rows of a trace: a row for each answer of a kevent call and each impossible record, as
    /// one fold of the whole system over the trace gives them. In that fold a close leaves no knote
    /// behind that watches its number, and the others go on to watch what their numbers name.
    pub fn run(alloc: Global, trace: &Trace) -> Result<Vec<Row>, Memory>
        ensures rows { IfOk result (λ rs. rs.items ≡ rows trace.now.version trace.now.events) }

        // In version 1 of the trace's format these are the rows that it gave while it had no other.
        ensures version_one { trace.now.version ≡ 1
            → IfOk result (λ rs. rs.items ≡ one.rows 1 trace.now.events) }

        // After each record no kqueue has a READ, WRITE or VNODE knote of a number that it closed.
        ensures closed { AlwaysClosesAll 1
            (empty_system {h = listed} {k = objects.listed} trace.now.version) trace.now.events }

        // At first and after each record, these knotes watch what their numbers name.
        ensures watched { AlwaysWatchTheirNumbers 1
            (empty_system {h = listed} {k = objects.listed} trace.now.version) trace.now.events }
    {
        let empty = System::new(alloc, trace.version)?;
        let mut system = Box::new(alloc, empty)?;
        rows_from(alloc, &mut system, trace)
    }
}

/// The rows of a trace, as a system carries its records out that carried out none before.
fn rows_from(alloc: Global, system: &mut System, trace: &Trace) -> Result<Vec<Row>, Memory>
    requires { system.old.applied ≡ 0 }
    ensures { IfOk result (λ rs. rs.items ≡ rows_after 1 (system_of system.old) trace.now.events) }
{
    let mut rows = Vec::new(alloc);
    for event in trace.events.as_slice() {
        let reply = system.apply(event)?;
        put_row(&mut rows, system.applied(), reply)?;
    }
    Ok(rows)
}

/// Adds the row of the reply to the record at a place, if it has one.
fn put_row(rows: &mut Vec<Row>, at: u64, reply: Reply) -> Result<(), Memory>
    ensures { OnOk result (rows.new.items ≡ rows.old.items ++ row_of at reply) }
{
    match reply {
        Reply::Done => Ok(()),
        reply => rows.push(Row { at, reply }).map_err(|_| Memory),
    }
}
