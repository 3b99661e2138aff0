//! What a knote heard, in numbers and not as a list: a count, and a union of notes.

ghost use Rattle.std.specs.Prelude.{◌≡◌, ◌+◌, min, true, if◌then◌else◌};
ghost use Rattle.kq_model.specs.Hearing.{Expired, Told, is_counted, most_counted, notes_of};
ghost use Rattle.kq_model.specs.Tallying.{is_telling, tallying};

use kq_model::Hint;
use std::marker::Model;

/// The greatest data of a kevent.
const MOST_COUNTED: u64 = i64::MAX as u64;

/// What a knote has heard since it was last reset. kqueue(2) gives events that trigger a filter more than once as one
/// kevent. Only deliveries of a signal and expirations are counted. Nothing is kept of what READ and WRITE hear: what
/// they return is what a look sees.
#[derive(Debug, Drop, Clone, Copy)]
pub struct Tally {
    /// How much of what is counted it heard, at most 2^63 - 1.
    pub count: u64,
    /// The union of the notes that it heard.
    pub notes: u32,
    /// It heard a hint that tells something by itself: a note, or of a child.
    pub told: bool,
}

impl Model for Tally {
    ghost use Rattle.kq_model.specs.Tallying as tallying;

    ghost Value = { tallying.Tally };

    ghost view = { λ t. record { count = t.count; notes = t.notes; told = t.told } };

    ghost inverse = { λ t. record { count = t.count; notes = t.notes; told = t.told } };
}

impl Tally {
    /// Nothing was heard.
    pub fn empty() -> Self
        ensures { result ≡ tallying.empty }
    {
        Tally {
            count: 0,
            notes: 0,
            told: false,
        }
    }

    /// One hint more.
    #[tactic(auto, unfolding(kq_model::specs::Hearing::notes_of))]
    pub fn add(&mut self, hint: Hint)
        ensures { self.new ≡ tallying.heard (Told hint) self.old }
    {
        self.notes |= notes_of(hint);
        if is_counted(hint) {
            self.count = self.count.saturating_add(1).min(MOST_COUNTED);
        }
        if is_telling(hint) {
            self.told = true;
        }
    }

    /// So many expirations more.
    pub fn expire(&mut self, times: u64)
        ensures { self.new ≡ record {
          count = min (self.old.count + times) most_counted;
          notes = self.old.notes;
          told = self.old.told;
        } }
    {
        self.count = self.count.saturating_add(times).min(MOST_COUNTED);
    }

    /// One expiration more, where there was one.
    #[tactic(auto, unfolding(kq_model::specs::Hearing::notes_of))]
    pub fn expired_if(self, come: bool) -> Self
        ensures { result ≡ (if come then tallying.heard Expired self else self) }
    {
        if !come {
            return self;
        }
        Tally {
            count: self.count.saturating_add(1).min(MOST_COUNTED),
            ..self
        }
    }

    /// Whether nothing was heard that tells anything.
    pub fn is_empty(&self) -> bool
        ensures { result ≡ tallying.is_empty self.now }
    {
        self.count == 0 && !self.told
    }
}

/// Whether a hint is counted.
fn is_counted(hint: Hint) -> bool
    ensures { result ≡ is_counted (Told hint) }
{
    matches!(hint, Hint::Delivered)
}

/// Whether it matters of a hint that it was heard.
fn is_telling(hint: Hint) -> bool
    ensures { result ≡ is_telling (Told hint) }
{
    matches!(hint, Hint::Note(_) | Hint::Child(_))
}

/// The notes of a hint, as bits of fflags.
#[tactic(auto, unfolding(kq_model::specs::Hearing::notes_of))]
fn notes_of(hint: Hint) -> u32
    ensures { result ≡ notes_of (Told hint) }
{
    match hint {
        Hint::Note(bits) => bits,
        _ => 0,
    }
}
