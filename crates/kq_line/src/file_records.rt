//! Records about files, each kind by a function of its own; [`crate::records`] has the others.

ghost use Rattle.std.specs.Prelude.{IfSome};
ghost use Rattle.serde_json.specs.Data.{Members};
ghost use Rattle.kq_line.specs.Shows.{Shows};
ghost use Rattle.kq_line.specs.Typed.{IsRecord};

use crate::found::Found;
use kq_model::{Event, RecordKind};

pub fn file(found: &Found) -> Option<Event>
    ensures { IfSome result (λ e. (ms : Members) → Shows found.now ms → IsRecord RecordKind.File ms e) }
{
    let file = found.u32_at(b"file")?;
    let size = found.i64_at(b"size")?;
    if found.width() != 3 {
        return None;
    }
    Some(Event::File { file, size })
}

pub fn open(found: &Found) -> Option<Event>
    ensures { IfSome result (λ e. (ms : Members) → Shows found.now ms → IsRecord RecordKind.Open ms e) }
{
    let pid = found.u32_at(b"pid")?;
    let fd = found.u32_at(b"fd")?;
    let file = found.u32_at(b"file")?;
    let mode = found.mode_at(b"mode")?;
    if found.width() != 5 {
        return None;
    }
    Some(Event::Open {
        pid,
        fd,
        file,
        mode,
    })
}

pub fn seek(found: &Found) -> Option<Event>
    ensures { IfSome result (λ e. (ms : Members) → Shows found.now ms → IsRecord RecordKind.Seek ms e) }
{
    let pid = found.u32_at(b"pid")?;
    let fd = found.u32_at(b"fd")?;
    let offset = found.i64_at(b"offset")?;
    if found.width() != 4 {
        return None;
    }
    Some(Event::Seek { pid, fd, offset })
}

pub fn truncate(found: &Found) -> Option<Event>
    ensures { IfSome result (λ e. (ms : Members) → Shows found.now ms → IsRecord RecordKind.Truncate ms e) }
{
    let file = found.u32_at(b"file")?;
    let size = found.i64_at(b"size")?;
    if found.width() != 3 {
        return None;
    }
    Some(Event::Truncate { file, size })
}

pub fn note(found: &Found) -> Option<Event>
    ensures { IfSome result (λ e. (ms : Members) → Shows found.now ms → IsRecord RecordKind.Note ms e) }
{
    let file = found.u32_at(b"file")?;
    let note = found.note_at(b"note")?;
    if found.width() != 3 {
        return None;
    }
    Some(Event::Note { file, note })
}
