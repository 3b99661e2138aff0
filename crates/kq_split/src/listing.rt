//! What is printed of a trace that was split.
ghost use Rattle.std.specs.Prelude.{◌≡◌, IfOk};
ghost use Rattle.kq_model.specs.Report.{row_lines};
ghost use Rattle.kq_projection.specs.Traced.{places_of, IsBorn};
ghost use Rattle.kq_split.specs.Lines.{item_lines};
ghost use Rattle.kq_split.specs.Texts.{rows_text, AreKqueueLines, IsItemsText};

use crate::item::put_item;
use crate::kqueue::put_kqueue;
use kq_merge::put_reply;
use kq_model::{Memory, Row};
use kq_projection::{Item, Replay, Split};
use std::alloc::Global;

/// A line for each kqueue, in the order of their birth.
pub fn kqueues_text(split: &Split) -> Result<Vec<u8>, Memory>
    ensures { IfOk result (λ text. AreKqueueLines split.now (places_of split.now) text.items) }
{
    let mut text = Vec::new(split.allocator());
    for kqueue in split.kqueues() {
        put_kqueue(&mut text, split, *kqueue)?;
    }
    Ok(text)
}

/// A line for each item of the private list of the kqueue that was made at a place.
pub fn items_text(split: &Split, kqueue: u64) -> Result<Vec<u8>, Memory>
    requires { IsBorn kqueue split.now }
    ensures { IfOk result (λ text. IsItemsText split.now kqueue text.items) }
{
    let list = split.private(kqueue)?;
    lines_of_items(split.allocator(), list.items())
}

/// The lines of the rows that the kqueue which was made at a place gives alone.
pub fn rows_text(split: &Split, kqueue: u64) -> Result<Vec<u8>, Memory>
    requires { IsBorn kqueue split.now }
    ensures { IfOk result (λ text. text.items ≡ rows_text split.now kqueue) }
{
    let list = split.private(kqueue)?;
    let own = list.replay()?;
    lines_of_rows(split.allocator(), own.rows.as_slice())
}

fn lines_of_items(alloc: Global, items: &[Item]) -> Result<Vec<u8>, Memory>
    ensures { IfOk result (λ text. text.items ≡ item_lines items.now) }
{
    let mut text = Vec::new(alloc);
    for item in items {
        put_item(&mut text, *item)?;
    }
    Ok(text)
}

fn lines_of_rows(alloc: Global, rows: &[Row]) -> Result<Vec<u8>, Memory>
    ensures { IfOk result (λ text. text.items ≡ row_lines rows.now) }
{
    let mut text = Vec::new(alloc);
    for row in rows {
        put_reply(&mut text, row.at, &row.reply)?;
    }
    Ok(text)
}
