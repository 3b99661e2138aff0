//! The rows of many kqueues, in order by place.

ghost use Rattle.std.specs.Prelude.{◌≡◌, ◌++◌, IfOk, OnOk};
ghost use Rattle.std.specs.List.{flat_map};
ghost use Rattle.std.specs.List.Sorted.{IsPermutation};
ghost use Rattle.kq_merge.specs.ByPlace.{IsOnlyOrder, NeverFall, rows_in};

use kq_model::{Memory, Row, Rows};
use std::alloc::Global;

/// All rows of these kqueues and the plain rows, each once, by place. Rows of kqueues move; the plain ones are copied.
/// Memory: a growth was refused.
pub fn merge(alloc: Global, kqueues: Vec<Rows>, plain: &[Row]) -> Result<Vec<Row>, Memory>
    ensures same { IfOk result (λ rows. IsPermutation (rows_in kqueues.items plain.now) rows.items) }
    ensures by_place { IfOk result (λ rows. NeverFall rows.items) }
    ensures only { IfOk result (λ rows. IsOnlyOrder (rows_in kqueues.items plain.now) rows.items) }
{
    let mut rows = joined(alloc, kqueues)?;
    rows.append(&mut copied(alloc, plain)?)?;
    rows.sort_unstable_by_key(|row| row.at);
    Ok(rows)
}

/// The rows of these kqueues, one list behind the other.
fn joined(alloc: Global, kqueues: Vec<Rows>) -> Result<Vec<Row>, Memory>
    ensures { IfOk result (λ rows. rows.items ≡ flat_map (λ k. k.rows) kqueues.items) }
{
    let mut rows = Vec::new(alloc);
    for kqueue in kqueues {
        let mut list = kqueue.rows.into_vec();
        rows.append(&mut list)?;
    }
    Ok(rows)
}

/// Copies of these rows.
fn copied(alloc: Global, rows: &[Row]) -> Result<Vec<Row>, Memory>
    ensures { IfOk result (λ copies. copies.items ≡ rows.now) }
{
    let mut copies = Vec::with_capacity(alloc, rows.len())?;
    for row in rows {
        copies.push(row.copy()?)?;
    }
    Ok(copies)
}
