//! The rows of a live system's book, by a replay of its trace: the trace is split, each of its kqueues is replayed
//! alone, and the rows of all are put in order. They are those that the book has, whatever threads called the live
//! system.
#![tactic(auto)]

ghost use Rattle.std.specs.Prelude.{◌≡◌, ◌<◌, ◌⊎◌, IfErr, IfOk};
ghost use Rattle.kq_model.specs.System.{rows};

use kq_live::Book;
use kq_merge::merge;
use kq_model::Row;
use kq_projection::{RunFault, Split, replay_all};
use kq_threads::Open;
use std::sync::Wait;
use std::thread::Threads;

/// The rows that [`Book::rows`] gives, replayed by so many workers, 1 to 256. Any other number is
/// [`RunFault::Workers`], unless memory is short.
pub fn replayed_rows<R: AllocGlobal + Threads + Wait + Sync>(
    rt: &R,
    book: &Book,
    workers: u32,
) -> Result<Vec<Row>, RunFault>
    ensures rows { IfOk result (λ rs. rs.items ≡ rows book.now.version book.now.events) }
    ensures fault { IfErr result (λ f. f ≡ RunFault.Workers → (workers ≡ 0) ⊎ (256 < workers)) }
{
    let trace = book.trace()?;
    let split = Split::of(rt.alloc(), &trace)?;
    let kqueues = replay_all(rt, &split, workers, &Open)?;
    let merged = merge(rt.alloc(), kqueues, split.plain_rows())?;
    Ok(merged)
}
