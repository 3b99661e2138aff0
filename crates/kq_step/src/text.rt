//! The lines of answers.
ghost use Rattle.std.specs.Prelude.{◌≡◌, IfOk, OnOk};
ghost use Rattle.kq_text.specs.Adds.{Adds};
ghost use Rattle.kq_step.specs.Stepping.{fault_line, place_line, replied_line};

use kq_merge::put_reply;
use kq_model::{LineFault, Memory, Reply};
use kq_text::{put, put_number};
use std::alloc::Global;

/// The line of the reply to the record at a place; where the record has no row, its place alone.
pub fn replied_text(alloc: Global, at: u64, reply: &Reply) -> Result<Vec<u8>, Memory>
    ensures { IfOk result (λ text. text.items ≡ replied_line at reply.now) }
{
    let mut text = Vec::new(alloc);
    put_replied(&mut text, at, reply)?;
    Ok(text)
}

/// The line of a fault.
pub fn fault_text(alloc: Global, line: u64, fault: LineFault) -> Result<Vec<u8>, Memory>
    ensures { IfOk result (λ text. text.items ≡ fault_line line fault) }
{
    let mut text = Vec::new(alloc);
    put_fault(&mut text, line, fault)?;
    Ok(text)
}

/// Adds the line of the reply to the record at a place; where the record has no row, its place alone.
fn put_replied(out: &mut Vec<u8>, at: u64, reply: &Reply) -> Result<(), Memory>
    ensures { OnOk result (Adds out.old.items (replied_line at reply.now) out.new.items) }
{
    match reply {
        Reply::Done => put_place(out, at),
        _ => put_reply(out, at, reply),
    }
}

fn put_place(out: &mut Vec<u8>, at: u64) -> Result<(), Memory>
    ensures { OnOk result (Adds out.old.items (place_line at) out.new.items) }
{
    put(out, "{\"at\":")?;
    put_number(out, at)?;
    put(out, "}\n")
}

/// Adds the line of a fault.
fn put_fault(out: &mut Vec<u8>, line: u64, fault: LineFault) -> Result<(), Memory>
    ensures { OnOk result (Adds out.old.items (fault_line line fault) out.new.items) }
{
    put(out, "{\"line\":")?;
    put_number(out, line)?;
    put(out, ",\"fault\":\"")?;
    put(out, fault.name())?;
    put(out, "\"}\n")
}
