//! Answers the lines of an input.
ghost use Rattle.std.specs.Prelude.{◌≡◌, ◌+◌, ◌≤◌, [], length, true, false, IfErr, IfOk, OnOk};
ghost use Rattle.std.specs.Io.KnownBytes.{prepend_known};
ghost use Rattle.kq_input.specs.Unread.{most_read_bytes};
ghost use Rattle.kq_model.specs.Limits.{IsVersion};
ghost use Rattle.kq_step.specs.Answering.{IsHeaderFault, IsOpened, LeavesBy, WroteAll};
ghost use Rattle.kq_step.specs.SoFar.{FromSoFar, SoFar};
ghost use Rattle.kq_step.specs.Stepping.{before_records};
ghost use Rattle.kq_step.specs.Stood.{IsAt};

use crate::fault::Fault;
use crate::output::write_out;
use crate::stepping::Stepping;
use kq_input::{Lines, LinesError};
use kq_model::Memory;
use kq_trace::version_on;
use std::alloc::Global;
use std::io::{Read, Write};

/// Answers each line of a trace behind its header before it reads the next one, and writes the last line of the report
/// once none is left. The first line alone, where it is no header, is [`Fault::Header`].
///
/// What was written after `Read` is the answers to all lines that were whole in what the input gave; after `Memory` to
/// all but some that end in the last bytes of it, no more than one read takes. After `Write` a beginning of the answers
/// was written. An input of 2^64 lines is [`Fault::Read`].
pub fn answer_all<I: Read, O: Write>(alloc: Global, input: &mut I, out: &mut O) -> Result<(), Fault>
    ensures all { OnOk result (WroteAll (I.remaining input.old) (O.contents out.old) (O.contents out.new)) }
    ensures fault { IfErr result (LeavesBy (I.remaining input.old) (I.remaining input.new) (O.contents out.old)
        (O.contents out.new)) }
{
    match Lines::new(alloc) {
        Ok(mut lines) => answer_behind(alloc, &mut lines, input, out),
        Err(_) => Err(Fault::Memory),
    }
}

/// Answers all with a reader that has read nothing.
fn answer_behind<I: Read, O: Write>(
    alloc: Global,
    lines: &mut Lines,
    input: &mut I,
    out: &mut O,
) -> Result<(), Fault>
    requires { lines.old.waiting ≡ [] }
    ensures all { OnOk result (WroteAll (I.remaining input.old) (O.contents out.old) (O.contents out.new)) }
    ensures fault { IfErr result (LeavesBy (I.remaining input.old) (I.remaining input.new) (O.contents out.old)
        (O.contents out.new)) }
{
    let version = header(alloc, lines, input)?;
    let Ok(mut stepping) = stepping_from(alloc, version) else {
        return Err(Fault::Memory);
    };
    answer_lines(&mut stepping, lines, input, out)
}

/// Before the first record of a trace of this version, on the heap, so that it can be moved at little cost.
fn stepping_from(alloc: Global, version: u32) -> Result<Box<Stepping>, Memory>
    requires { IsVersion version }
    ensures { IfOk result (λ stepping. IsAt (before_records version) stepping.value) }
{
    let stepping = Stepping::new(alloc, version)?;
    Ok(Box::new(alloc, stepping)?)
}

/// Reads the version that the header names. An input without a line has an empty one.
fn header<I: Read>(alloc: Global, lines: &mut Lines, input: &mut I) -> Result<u32, Fault>
    requires { lines.old.waiting ≡ [] }
    ensures opened { IfOk result (IsOpened (I.remaining input.old)
        (prepend_known lines.new.waiting (I.remaining input.new))) }
    ensures known { IfOk result IsVersion }
    ensures fault { IfErr result (IsHeaderFault (I.remaining input.old) (I.remaining input.new)) }
    ensures few { OnOk result (length lines.new.waiting ≤ most_read_bytes) }
{
    let _ = lines.next(input)?;
    match version_on(alloc, lines.line())? {
        Ok(version) => Ok(version),
        Err(fault) => Err(Fault::Header { fault }),
    }
}

/// Answers each line behind the header.
fn answer_lines<I: Read, O: Write>(
    stepping: &mut Stepping,
    lines: &mut Lines,
    input: &mut I,
    out: &mut O,
) -> Result<(), Fault>
    ensures all { OnOk result (FromSoFar (prepend_known lines.old.waiting (I.remaining input.old)) (O.contents out.old)
        2 stepping.old (λ given before. WroteAll given before (O.contents out.new))) }
    ensures fault { IfErr result (λ fault. FromSoFar (prepend_known lines.old.waiting (I.remaining input.old))
        (O.contents out.old) 2 stepping.old
        (λ given before. LeavesBy given (I.remaining input.new) before (O.contents out.new) fault)) }
{
    'lines: for number in 2..u64::MAX {
        if !answer_next(stepping, number, lines, input, out)? {
            return Ok(());
        }
    }
    Err(Fault::Read)
}

/// Answers the next line, or writes the last line of the report where none is left; whether there was one.
fn answer_next<I: Read, O: Write>(
    stepping: &mut Stepping,
    number: u64,
    lines: &mut Lines,
    input: &mut I,
    out: &mut O,
) -> Result<bool, Fault>
    ensures more { IfOk result (λ some. some ≡ true → FromSoFar
        (prepend_known lines.old.waiting (I.remaining input.old)) (O.contents out.old) number stepping.old
        (λ given before. SoFar given before (prepend_known lines.new.waiting (I.remaining input.new))
        (O.contents out.new) (number + 1) stepping.new)) }
    ensures all { IfOk result (λ some. some ≡ false → FromSoFar
        (prepend_known lines.old.waiting (I.remaining input.old)) (O.contents out.old) number stepping.old
        (λ given before. WroteAll given before (O.contents out.new))) }
    ensures fault { IfErr result (λ fault. FromSoFar
        (prepend_known lines.old.waiting (I.remaining input.old)) (O.contents out.old) number stepping.old
        (λ given before. LeavesBy given (I.remaining input.new) before (O.contents out.new) fault)) }
{
    match lines.next(input) {
        Ok(true) => {
            let Ok(text) = stepping.answer(number, lines.line()) else {
                return Err(Fault::Memory);
            };
            write_out(&text, out)?;
            Ok(true)
        }
        Ok(false) => {
            let Ok(last) = stepping.end() else {
                return Err(Fault::Memory);
            };
            write_out(&last, out)?;
            Ok(false)
        }
        Err(LinesError::Read) => Err(Fault::Read),
        Err(LinesError::Memory) => Err(Fault::Memory),
    }
}
