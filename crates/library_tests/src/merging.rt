//! The rows of a trace, and lists of rows put in order.
use crate::dup::dup_over;
use kq_merge::merge;
use kq_model::limits::MOST_RECORDS;
use kq_model::{Event, Memory, Reply, Row, Rows, Series};
use kq_system::System;
use std::alloc::Global;
use std::test::Fail;

/// The places of rows.
fn places(alloc: Global, rows: &[Row]) -> Result<Vec<u64>, Memory> {
    let mut places = Vec::new(alloc);
    for row in rows {
        places.push(row.at).map_err(|_| Memory)?;
    }
    Ok(places)
}

/// A list of rows at these places.
fn rows_at(alloc: Global, places: &[u64]) -> Result<Vec<Row>, Memory> {
    let mut rows = Vec::new(alloc);
    for at in places {
        let reply = Reply::Done;
        rows.push(Row { at: *at, reply }).map_err(|_| Memory)?;
    }
    Ok(rows)
}

/// The rows of a kqueue, at these places.
fn kqueue_at(alloc: Global, kqueue: u64, places: &[u64]) -> Result<Rows, Memory> {
    let rows = Series::from_vec(rows_at(alloc, places)?);
    Ok(Rows { kqueue, rows })
}

#[test]
fn a_system_gives_the_rows_of_a_trace(rt: HostRuntime) -> Result<(), Fail> {
    let trace = dup_over(rt.alloc())?;
    let rows = System::run(rt.alloc(), &trace)?;
    let places = places(rt.alloc(), rows.as_slice())?;
    assert!(rt; places.as_slice() == [9, 10, 11, 14, 15, 16, 17].as_slice());
    Ok(())
}

/// How many events a system has applied after those of a trace of version 1.
fn applied(alloc: Global, events: &[Event]) -> Result<u64, Memory> {
    let mut system = System::new(alloc, 1)?;
    for event in events {
        if system.applied() < MOST_RECORDS {
            system.apply(event)?;
        }
    }
    Ok(system.applied())
}

#[test]
fn a_system_counts_what_it_applied(rt: HostRuntime) -> Result<(), Fail> {
    let trace = dup_over(rt.alloc())?;
    assert_eq!(rt; applied(rt.alloc(), trace.events.as_slice())?, 17);
    Ok(())
}

#[test]
fn rows_are_merged_by_place(rt: HostRuntime) -> Result<(), Fail> {
    let kqueues = [
        kqueue_at(rt.alloc(), 2, &[9, 14])?,
        kqueue_at(rt.alloc(), 3, &[10])?,
    ];
    let kqueues = Vec::from_array(rt.alloc(), kqueues)?;
    let plain = rows_at(rt.alloc(), &[7])?;
    let merged = merge(rt.alloc(), kqueues, plain.as_slice())?;
    let places = places(rt.alloc(), merged.as_slice())?;
    assert!(rt; places.as_slice() == [7, 9, 10, 14].as_slice());
    Ok(())
}
