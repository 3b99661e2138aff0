//! READ and WRITE, which see how much there is now: bytes, space or connections.

ghost use Rattle.std.specs.Prelude.{◌≡◌, ◌&&◌, ◌||◌, pos, int_lt, int_le};
ghost use Rattle.std.specs.Int.{int_min};
ghost use Rattle.kq_model.specs.Look.{difference, pipe_mark, side_seen, amount_seen, mark_of, read_seen, write_seen};

use crate::Seen;
use kq_knote::Knote;
use kq_model::View;
use kq_model::notes::NOTE_LOWAT;

/// What one side of an object shows: its amount where it is ready or was shut. A side that was
/// shut is EOF, with its error or 0.
#[tactic(auto, unfolding(kq_model::specs::Look::side_seen))]
fn side_seen(ready: bool, shut: bool, error: u32, amount: i64) -> Option<Seen>
    ensures { result ≡ side_seen ready shut error amount }
{
    if !ready && !shut {
        return None;
    }
    Some(Seen {
        fflags: if shut { error } else { 0 },
        datum: amount,
        eof: shut,
    })
}

/// An amount, where it is ready.
#[tactic(auto, unfolding(kq_model::specs::Look::amount_seen))]
fn amount_seen(ready: bool, amount: i64) -> Option<Seen>
    ensures { result ≡ amount_seen ready amount }
{
    side_seen(ready, false, 0, amount)
}

/// The low-water mark: NOTE_LOWAT puts the knote's data, whatever its sign, in the place of the
/// socket's.
#[tactic(auto, unfolding(kq_model::specs::Look::mark_of))]
fn mark_of(knote: &Knote, mark: i64) -> i64
    ensures { result ≡ mark_of knote.now mark }
{
    if knote.fflags & NOTE_LOWAT == NOTE_LOWAT {
        knote.datum
    } else {
        mark
    }
}

/// A difference of amounts, or the nearest that 64 bits hold.
fn difference(all: i64, part: i64) -> i64
    ensures { result ≡ difference all part }
{
    all.saturating_sub(part)
}

/// Whether there is an amount, be it negative. That it is no `!=` is for the prover alone, which compares it with
/// the definition.
fn is_some_amount(amount: i64) -> bool
    ensures { result ≡ int_lt (pos 0) amount || int_lt amount (pos 0) }
{
    0 < amount || amount < 0
}

/// The space from which on a pipe is ready for WRITE: 512, or all that it holds.
fn pipe_mark(cap: i64) -> i64
    ensures { result ≡ pipe_mark cap }
{
    if cap < 512 { cap } else { 512 }
}

/// EVFILT_READ: connections that wait, bytes from the mark on, or what a file has behind the
/// offset.
#[tactic(auto, unfolding(kq_model::specs::Look::read_seen))]
#[inline(always)]
pub fn look_read(knote: &Knote, view: &Option<View>) -> Option<Seen>
    ensures { result ≡ read_seen (mark_of knote.now) view.now }
{
    match view {
        Some(View::Listen { pending }) => amount_seen(*pending > 0, *pending),
        Some(
            View::Sock {
                readable,
                read_mark,
                read_shut,
                read_error,
                ..
            },
        ) => {
            let ready = *readable >= mark_of(knote, *read_mark);
            side_seen(ready, *read_shut, *read_error, *readable)
        }
        Some(View::Pipe { bytes, writer, .. }) => side_seen(*bytes > 0, !*writer, 0, *bytes),
        Some(View::Open { size, offset }) => {
            let rest = difference(*size, *offset);
            amount_seen(is_some_amount(rest), rest)
        }
        _ => None,
    }
}

/// EVFILT_WRITE: space from the mark on. A listening socket is never ready.
#[tactic(auto, unfolding(kq_model::specs::Look::write_seen))]
#[inline(always)]
pub fn look_write(knote: &Knote, view: &Option<View>) -> Option<Seen>
    ensures { result ≡ write_seen (mark_of knote.now) view.now }
{
    match view {
        Some(
            View::Sock {
                connected,
                space,
                write_mark,
                write_shut,
                write_error,
                ..
            },
        ) => {
            let ready = *connected && *space >= mark_of(knote, *write_mark);
            side_seen(ready, *write_shut, *write_error, *space)
        }
        Some(
            View::Pipe {
                bytes,
                cap,
                reader,
                ..
            },
        ) => {
            let space = difference(*cap, *bytes);
            side_seen(space >= pipe_mark(*cap), !*reader, 0, space)
        }
        _ => None,
    }
}
