//! When a line is due.

ghost use Rattle.std.specs.Prelude.{◌↔◌, IsTrue};
ghost use Rattle.kq_progress.specs.Pace.{IsDue};

/// What begins takes long from so many milliseconds on.
const LONG: u64 = 1000;

/// So many milliseconds at least are between two lines.
const APART: u64 = 200;

/// Whether a line is due so many milliseconds after the start, where the last one was shown then, if at all.
pub fn is_due(now: u64, shown: Option<u64>) -> bool
    ensures { IsTrue result ↔ IsDue now shown }
{
    match shown {
        None => now >= LONG,
        Some(at) => now >= at && now - at >= APART,
    }
}
