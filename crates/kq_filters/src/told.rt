//! VNODE, PROC, SIGNAL and TIMER, which see what their knotes were told.

ghost use Rattle.std.specs.Prelude.{◌≡◌, min};
ghost use Rattle.kq_model.specs.Hearing.{most_counted};
ghost use Rattle.kq_model.specs.Look.{status_of, process_seen, notes_seen, count_seen};

use crate::Seen;
use kq_model::View;
use kq_model::notes::NOTE_EXIT;

/// EVFILT_VNODE: the notes that were heard.
#[tactic(auto, unfolding(kq_model::specs::Look::notes_seen))]
pub fn notes_seen(notes: u32) -> Option<Seen>
    ensures { result ≡ notes_seen notes }
{
    if notes == 0 {
        return None;
    }
    Some(Seen {
        fflags: notes,
        datum: 0,
        eof: false,
    })
}

/// The exit status of a process that has exited.
#[tactic(auto, unfolding(kq_model::specs::Look::status_of))]
pub fn status_of(view: &Option<View>) -> Option<u32>
    ensures { result ≡ status_of view.now }
{
    match view {
        Some(View::Process { exited }) => *exited,
        _ => None,
    }
}

/// EVFILT_PROC: the notes that were heard, with EOF once the process has exited, and with its
/// status where NOTE_EXIT is among them.
#[tactic(auto, unfolding(kq_model::specs::Look::process_seen))]
pub fn process_seen(notes: u32, exited: Option<u32>) -> Option<Seen>
    ensures { result ≡ process_seen notes exited }
{
    if notes == 0 {
        return None;
    }
    match exited {
        None => Some(Seen {
            fflags: notes,
            datum: 0,
            eof: false,
        }),
        Some(status) => Some(Seen {
            fflags: notes,
            datum: if notes & NOTE_EXIT == NOTE_EXIT {
                i64::from(status)
            } else {
                0
            },
            eof: true,
        }),
    }
}

/// EVFILT_SIGNAL and EVFILT_TIMER: how often something was heard, at most 2^63 - 1.
#[tactic(auto, unfolding(kq_model::specs::Look::count_seen))]
pub fn count_seen(count: u64) -> Option<Seen>
    ensures { result ≡ count_seen (min count most_counted) }
{
    let count = count.min(i64::MAX as u64);
    if count == 0 {
        return None;
    }
    Some(Seen {
        fflags: 0,
        datum: count as i64,
        eof: false,
    })
}
