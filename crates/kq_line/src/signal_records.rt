//! Records about programs, signals and the clock, each kind by a function of its own; [`crate::records`] has the
//! others.

ghost use Rattle.std.specs.Prelude.{IfSome};
ghost use Rattle.serde_json.specs.Data.{Members};
ghost use Rattle.kq_line.specs.Shows.{Shows};
ghost use Rattle.kq_line.specs.Typed.{IsRecord};

use crate::found::Found;
use kq_model::{Event, RecordKind};

pub fn exec(found: &Found) -> Option<Event>
    ensures { IfSome result (λ e. (ms : Members) → Shows found.now ms → IsRecord RecordKind.Exec ms e) }
{
    let pid = found.u32_at(b"pid")?;
    if found.width() != 2 {
        return None;
    }
    Some(Event::Exec { pid })
}

pub fn sigset(found: &Found) -> Option<Event>
    ensures { IfSome result (λ e. (ms : Members) → Shows found.now ms → IsRecord RecordKind.Sigset ms e) }
{
    let pid = found.u32_at(b"pid")?;
    let sig = found.u32_at(b"sig")?;
    let ignore = found.truth_at(b"ignore")?;
    if found.width() != 4 {
        return None;
    }
    Some(Event::Sigset { pid, sig, ignore })
}

pub fn sig(found: &Found) -> Option<Event>
    ensures { IfSome result (λ e. (ms : Members) → Shows found.now ms → IsRecord RecordKind.Sig ms e) }
{
    let pid = found.u32_at(b"pid")?;
    let sig = found.u32_at(b"sig")?;
    if found.width() != 3 {
        return None;
    }
    Some(Event::Sig { pid, sig })
}

pub fn clock(found: &Found) -> Option<Event>
    ensures { IfSome result (λ e. (ms : Members) → Shows found.now ms → IsRecord RecordKind.Clock ms e) }
{
    let ns = found.moment_at(b"ns")?;
    if found.width() != 2 {
        return None;
    }
    Some(Event::Clock { ns })
}
