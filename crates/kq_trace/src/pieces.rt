//! Text cut at line ends into pieces, which several threads decode, where all its lines are records.

ghost use Rattle.std.specs.Prelude.{◌≡◌, ◌≤◌, ℕ, IfOk, IfSome, List, length};
ghost use Rattle.kq_trace.specs.Batches.{AreReadAs, AreRecordsAnywhere, IsReadAs};
ghost use Rattle.kq_trace.specs.Rest.{lines_behind, lines_in};

use crate::batches::{Batch, batch_of};
use crate::decoders::Decoders;
use crate::line::{cut_behind, lines_up_to};
use crate::part::Part;
use kq_model::Memory;
use kq_threads::join;
use rayon::prelude::*;
use std::alloc::{AllocError, Global};
use std::collections::VecDeque;
use std::sync::Wait;
use std::thread::Threads;

/// So few bytes are decoded together at least, and the line that they end in.
const LEAST_PIECE_BYTES: usize = 65_536;

/// Cuts a text into pieces of so many bytes or more, up to the end of a line.
fn pieces_of<'a>(alloc: Global, text: &'a [u8], bytes: usize) -> Result<Vec<&'a [u8]>, Memory>
    ensures { IfOk result (λ pieces. lines_in pieces.items ≡ lines_behind text.now) }
{
    let mut pieces = Vec::new(alloc);
    let mut rest = text;
    'pieces: while !rest.is_empty() {
        let (piece, behind) = cut_behind(rest, bytes);
        pieces.push(piece)?;
        rest = behind;
    }
    Ok(pieces)
}

/// What the lines of a piece are.
fn batch_in(alloc: Global, piece: &[u8]) -> Batch
    ensures { IsReadAs (lines_behind piece.now) result }
{
    match lines_up_to(alloc, piece, u64::MAX) {
        Ok((lines, _)) => batch_of(alloc, lines.as_slice()),
        Err(Memory) => Batch::Memory,
    }
}

/// How many bytes are decoded together at least: an equal share of the text for each of so many threads, but enough to
/// be worth one.
fn piece_bytes(bytes: usize, threads: u32) -> usize {
    bytes
        .div_ceil(threads.max(1) as usize)
        .max(LEAST_PIECE_BYTES)
}

/// What the lines of each piece are, each decoded on a thread of its own, but by no more than suit the processors.
/// Pieces whose thread does not start are decoded on the thread that would have started it.
fn batches_in<R: Threads + Sync>(
    rt: &R,
    alloc: Global,
    pieces: &[&[u8]],
) -> Result<Vec<Batch>, AllocError>
    ensures { IfOk result (λ batches. AreReadAs (lines_in pieces.now) batches.items) }
{
    pieces
        .par_iter()
        .with_min_len(1)
        .map(
            |piece: &&[u8]| -> Batch
                ensures { IsReadAs (lines_behind piece.now.now) result }
            { batch_in(alloc, piece) },
        )
        .collect(rt, alloc)
}

/// The records of all batches, if all lines are records and no more than so many.
fn gathered(alloc: Global, batches: Vec<Batch>, most: u64) -> Result<Option<Part>, Memory>
    ensures read { (lines : List (List ℕ)) → AreReadAs lines batches.items
        → IfOk result (λ part. IfSome part (AreRecordsAnywhere lines)) }
    ensures few { IfOk result (λ part. IfSome part (λ events. length events ≤ most)) }
{
    let mut part = Part::new(alloc);
    let mut ahead = VecDeque::from(batches);
    'batches: while let Some(batch) = ahead.pop_front() {
        match batch {
            Batch::Records(piece) => {
                if piece.len() as u64 > most - part.len() {
                    return Ok(None);
                }
                part.push(piece)?;
            }
            Batch::Bad { .. } => return Ok(None),
            Batch::Memory => return Err(Memory),
        }
    }
    Ok(Some(part))
}

/// What the lines of each piece are, the first decoded on the calling thread and each other one on a thread of its own.
/// Memory also comes where such a thread does not start.
fn batches_beside<R: Threads + Wait>(
    rt: &R,
    alloc: Global,
    pieces: &[&[u8]],
) -> Result<Vec<Batch>, Memory>
    ensures { IfOk result (λ batches. AreReadAs (lines_in pieces.now) batches.items) }
{
    let Some((last, others)) = pieces.split_last() else {
        return Ok(Vec::new(alloc));
    };
    if others.is_empty() {
        let mut batches = Vec::new(alloc);
        batches.push(batch_in(alloc, last))?;
        return Ok(batches);
    }
    let joined = join(
        rt,
        move || -> Batch
            ensures { IsReadAs (lines_behind last.entry.now.now) result }
        { batch_in(alloc, last) },
        move || -> Result<Vec<Batch>, Memory>
            ensures { IfOk result (λ batches. AreReadAs (lines_in others.entry.now) batches.items) }
        { batches_beside(rt, alloc, others) },
    );
    if !joined.has_started {
        return Err(Memory);
    }
    let mut batches = joined.second?;
    batches.push(joined.first)?;
    Ok(batches)
}

/// The records on the lines of a text. None where a line is no record, or where there are more than so many.
pub fn records_in<R: Threads + Wait + Sync>(
    rt: &R,
    alloc: Global,
    text: &[u8],
    most: u64,
    decoders: Decoders,
) -> Result<Option<Part>, Memory>
    ensures read { IfOk result (λ part. IfSome part (AreRecordsAnywhere (lines_behind text.now))) }
    ensures few { IfOk result (λ part. IfSome part (λ events. length events ≤ most)) }
{
    let pieces = pieces_of(alloc, text, piece_bytes(text.len(), decoders.most()))?;
    let batches = match decoders {
        Decoders::Pool { .. } => batches_in(rt, alloc, pieces.as_slice())?,
        Decoders::Started { .. } => batches_beside(rt, alloc, pieces.as_slice())?,
    };
    gathered(alloc, batches, most)
}
