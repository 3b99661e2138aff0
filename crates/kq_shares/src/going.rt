//! One share goes over some records.
ghost use Rattle.std.specs.Prelude.{◌≡◌, ◌++◌, IfOk, List, OnOk, length};
ghost use Rattle.kq_model.specs.declared.row.Row.{Row};
ghost use Rattle.kq_model.specs.System.{row_of};
ghost use Rattle.kq_shares.specs.Going.{events_in, HasGone, HasPlaces};

use kq_model::{Event, Memory, Reply, Row};
use kq_system::Share;
use std::alloc::Global;

/// A share that went over some records, and the rows that it gave.
#[derive(Drop)]
pub struct Gone {
    pub share: Box<Share>,
    pub rows: Vec<Row>,
}

/// Takes a share past these pieces of records.
pub fn go_over(alloc: Global, share: Box<Share>, pieces: &[Vec<Event>]) -> Result<Gone, Memory>
    requires { HasPlaces (length (events_in pieces.now)) share.value }
    ensures { IfOk result (λ gone. HasGone share.value (events_in pieces.now) gone.share.value gone.rows.items) }
{
    let mut share = share;
    let mut rows = Vec::new(alloc);
    for piece in pieces {
        go_over_piece(&mut share, &mut rows, piece.as_slice())?;
    }
    Ok(Gone { share, rows })
}

/// Takes a share past the records of one piece, and puts its rows behind those that are there.
fn go_over_piece(share: &mut Share, rows: &mut Vec<Row>, events: &[Event]) -> Result<(), Memory>
    requires { HasPlaces (length events.now) share.old }
    ensures { OnOk result ((more : List Row) × HasGone share.old events.now share.new more
        × (rows.new.items ≡ rows.old.items ++ more)) }
{
    for event in events {
        let reply = share.apply(event)?;
        put_row(rows, share.applied(), reply)?;
    }
    Ok(())
}

/// Adds the row of the reply to the record at a place, if it has one.
fn put_row(rows: &mut Vec<Row>, at: u64, reply: Reply) -> Result<(), Memory>
    ensures { OnOk result (rows.new.items ≡ rows.old.items ++ row_of at reply) }
{
    match reply {
        Reply::Done => Ok(()),
        reply => rows.push(Row { at, reply }).map_err(|_| Memory),
    }
}
