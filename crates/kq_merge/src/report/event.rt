//! One event of a call, as it stands in a line of the report.

ghost use Rattle.std.specs.Prelude.{◌≡◌, ◌≤◌, ◌+◌, ◌++◌, codes, length, take};
ghost use Rattle.serde_json.specs.Written.{comma_if, compact_text};
ghost use Rattle.kq_model.specs.Report.{kevent_data};
ghost use Rattle.kq_text.specs.Writes.{Writes};
ghost use Rattle.kq_merge.specs.EventsText.{before_flags};

use super::bound::EVENT_BYTES;
use kq_model::{Filter, Kevent};
use kq_text::{write_at, write_first_at, write_flags_at, write_number_at, write_signed_at};

// A report has many events, so what stands between their numbers is written in pieces as long as can be.

/// Writes an event of a list as JSON, behind a comma where one stands before.
pub fn write_event_at(out: &mut [u8], start: usize, event: &Kevent, is_later: bool) -> usize
    requires { start + EVENT_BYTES ≤ length out.old }
    ensures text { Writes out.old start (comma_if is_later ++ compact_text (kevent_data event.now)) out.new result }
    ensures short { result ≤ start + EVENT_BYTES }
{
    let end = write_opening_at(out, start, is_later);
    let end = write_signed_at(out, end, event.datum);
    let end = write_at(out, end, ",\"fflags\":");
    let end = write_number_at(out, end, u64::from(event.fflags));
    let (filter, bytes) = before_flags(event.filter);
    let end = write_first_at(out, end, filter, bytes);
    let end = write_flags_at(out, end, event.flags);
    let end = write_at(out, end, ",\"ident\":");
    let end = write_number_at(out, end, event.ident);
    let end = write_at(out, end, ",\"udata\":");
    let end = write_number_at(out, end, event.udata);
    write_at(out, end, "}")
}

/// Writes what stands before the data of an event.
#[inline(always)]
fn write_opening_at(out: &mut [u8], start: usize, is_later: bool) -> usize
    requires { start + 9 ≤ length out.old }
    ensures text { Writes out.old start (comma_if is_later ++ codes "{\"data\":") out.new result }
    ensures short { result ≤ start + 9 }
{
    if is_later {
        write_at(out, start, ",{\"data\":")
    } else {
        write_at(out, start, "{\"data\":")
    }
}

/// An event's filter and the name of its flags, with blanks behind them up to 32 bytes, and how many bytes they have
/// without the blanks.
#[inline(always)]
fn before_flags(filter: Filter) -> (&'static str, usize)
    ensures text { take result.1 result.0.now ≡ before_flags filter }
    ensures padded { length result.0.now ≡ 32 }
    ensures short { result.1 ≤ 29 }
{
    match filter {
        Filter::Read => (",\"filter\":\"READ\",\"flags\":       ", 25),
        Filter::Write => (",\"filter\":\"WRITE\",\"flags\":      ", 26),
        Filter::Vnode => (",\"filter\":\"VNODE\",\"flags\":      ", 26),
        Filter::Proc => (",\"filter\":\"PROC\",\"flags\":       ", 25),
        Filter::Signal => (",\"filter\":\"SIGNAL\",\"flags\":     ", 27),
        Filter::Timer => (",\"filter\":\"TIMER\",\"flags\":      ", 26),
        Filter::User => (",\"filter\":\"USER\",\"flags\":       ", 25),
        Filter::Aio => (",\"filter\":\"AIO\",\"flags\":        ", 24),
        Filter::Lio => (",\"filter\":\"LIO\",\"flags\":        ", 24),
        Filter::Fs => (",\"filter\":\"FS\",\"flags\":         ", 23),
        Filter::Procdesc => (",\"filter\":\"PROCDESC\",\"flags\":   ", 29),
        Filter::Sendfile => (",\"filter\":\"SENDFILE\",\"flags\":   ", 29),
        Filter::Empty => (",\"filter\":\"EMPTY\",\"flags\":      ", 26),
    }
}
