//! A trace that is read, split, and printed.
ghost use Rattle.std.specs.Prelude.{◌↔◌, IfErr, IfOk, IsTrue, OnOk};
ghost use Rattle.kq_projection.specs.Traced.{traced, IsBorn};
ghost use Rattle.kq_split.specs.Texts.{IsText};
ghost use Rattle.kq_split.specs.Written.{IsInputFault, IsRead, IsTextFault, LeavesBy, Writes};

use crate::fault::Fault;
use crate::listing::{items_text, kqueues_text, rows_text};
use crate::output::write_out;
use crate::wanted::Wanted;
use kq_model::{Series, Trace};
use kq_projection::Split;
use kq_trace::{Input, Kept, read_trace_into};
use std::alloc::Global;
use std::io::{Read, Write};
use std::sync::Wait;
use std::thread::Threads;

/// Writes what is wanted of the trace that an input has, which is no more bytes than so many. The calling thread does
/// all. A read that fails, an interrupted one too, and an input of more bytes are [`Fault::Read`].
///
/// After [`Fault::Write`] a prefix of the text was written, after any other fault nothing.
pub fn write_text<R: AllocGlobal + Threads + Wait + Sync, I: Read + Send, O: Write>(
    rt: &R,
    wanted: Wanted,
    input: &mut I,
    limit: usize,
    out: &mut O,
) -> Result<(), Fault>
    ensures whole { OnOk result
        (Writes wanted (I.remaining input.old) limit (O.contents out.old) (O.contents out.new)) }
    ensures fault { IfErr result (λ f.
        LeavesBy f wanted (I.remaining input.old) limit (O.contents out.old) (O.contents out.new)) }
{
    let trace = trace_in(rt, input, limit)?;
    let text = text_of(rt.alloc(), &trace, wanted)?;
    write_out(text.as_slice(), out)
}

/// The trace that an input has.
fn trace_in<R: AllocGlobal + Threads + Wait + Sync, I: Read + Send>(
    rt: &R,
    input: &mut I,
    limit: usize,
) -> Result<Trace, Fault>
    ensures trace { IfOk result (IsRead (I.remaining input.old) limit) }
    ensures fault { IfErr result (IsInputFault (I.remaining input.old) limit) }
{
    let mut kept = Kept::new(rt.alloc());
    let version = read_trace_into(rt, &mut Input::new(input, limit), 1, &mut kept)?;
    Ok(Trace {
        version,
        events: Series::from_vec(kept.into_events()),
    })
}

/// What is wanted of a trace.
fn text_of(alloc: Global, trace: &Trace, wanted: Wanted) -> Result<Vec<u8>, Fault>
    ensures text { IfOk result (λ text. IsText (traced trace.now) wanted text.items) }
    ensures fault { IfErr result (IsTextFault (traced trace.now) wanted) }
{
    let split = Split::of(alloc, trace)?;
    match wanted {
        Wanted::Kqueues => Ok(kqueues_text(&split)?),
        Wanted::Items { kqueue } => items_of(&split, kqueue),
        Wanted::Rows { kqueue } => rows_of(&split, kqueue),
    }
}

/// The private list of a kqueue, if one was made at the place.
fn items_of(split: &Split, kqueue: u64) -> Result<Vec<u8>, Fault>
    ensures text { IfOk result (λ text. IsText split.now (Wanted.Items kqueue) text.items) }
    ensures fault { IfErr result (IsTextFault split.now (Wanted.Items kqueue)) }
{
    if !is_born(split, kqueue) {
        return Err(Fault::NoKqueue { at: kqueue });
    }
    Ok(items_text(split, kqueue)?)
}

/// The rows of a kqueue, if one was made at the place.
fn rows_of(split: &Split, kqueue: u64) -> Result<Vec<u8>, Fault>
    ensures text { IfOk result (λ text. IsText split.now (Wanted.Rows kqueue) text.items) }
    ensures fault { IfErr result (IsTextFault split.now (Wanted.Rows kqueue)) }
{
    if !is_born(split, kqueue) {
        return Err(Fault::NoKqueue { at: kqueue });
    }
    Ok(rows_text(split, kqueue)?)
}

/// Whether a kqueue was made at the place.
fn is_born(split: &Split, at: u64) -> bool
    ensures { IsTrue result ↔ IsBorn at split.now }
{
    split.kqueues().contains(&at)
}
