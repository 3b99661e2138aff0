//! How a knote comes from a change, and what later changes and a delivery make of it.

ghost use Rattle.std.specs.Prelude.{◌≡◌, ℕ, ◌/◌};
ghost use Rattle.kq_model.specs.Bits.{asks};
ghost use Rattle.kq_model.specs.Caller.{Caller};
ghost use Rattle.kq_model.specs.ChangedKnote.{always_clears, fresh, begun, replaced, restarted, changed, switched};
ghost use Rattle.kq_model.specs.ChangedKnote.{controlled, key_of, start_in, period_in, has_come, started};
ghost use Rattle.kq_model.specs.Targets.{target_of};
ghost use Rattle.kq_model.specs.Ticks.{timing_of};
ghost use Rattle.kq_model.specs.Retrieval.{rested};

use crate::{Knote, Tally};
use bitflags::Flags;
use kq_model::notes::{NOTE_FFAND, NOTE_FFLAGSMASK, NOTE_TRIGGER};
use kq_model::{Change, EvFlags, Filter, Target, Version};
use kq_timer::Timing;

/// The user's bits after a change, by its control: NOTE_FFNOP 0 leaves them, NOTE_FFAND 1,
/// NOTE_FFOR 2 and NOTE_FFCOPY 3 do as named.
#[tactic(auto, unfolding(kq_model::specs::ChangedKnote::controlled))]
fn controlled(how: u32, bits: u32, given: u32) -> u32
    ensures { result ≡ controlled how bits given }
{
    match how {
        1 => bits & given,
        2 => bits | given,
        3 => given,
        _ => bits,
    }
}

/// PROC, SIGNAL and TIMER have CLEAR always.
#[tactic(auto, unfolding(kq_model::specs::ChangedKnote::always_clears))]
fn always_clears(filter: Filter) -> bool
    ensures { result ≡ always_clears filter }
{
    matches!(filter, Filter::Proc | Filter::Signal | Filter::Timer)
}

/// A knote as it is before its filter makes anything of the change.
#[tactic(auto, unfolding(kq_model::specs::ChangedKnote::fresh))]
fn fresh(change: &Change, target: Option<Target>) -> Knote
    ensures { (caller : Caller) → target ≡ target_of caller.views caller.owner change.now.filter change.now.ident
        → result ≡ fresh caller change.now }
{
    let flags = change.flags;
    Knote {
        key: change.key(),
        target,
        fflags: change.fflags,
        datum: change.datum,
        udata: change.udata,
        oneshot: flags.contains(EvFlags::ONESHOT),
        clear: always_clears(change.filter) || flags.contains(EvFlags::CLEAR),
        dispatch: flags.contains(EvFlags::DISPATCH),
        enabled: !flags.contains(EvFlags::DISABLE),
        active: false,
        tally: Tally::empty(),
        start: 0,
        period: 0,
        bits: 0,
        triggered: false,
        notice: None,
    }
}

/// How a timer starts.
#[derive(Drop)]
struct Beginning {
    /// Its start, or its moment, in nanoseconds.
    start: u64,
    /// Its period, in nanoseconds; 0 where it has none.
    period: u64,
    /// It has expired already.
    come: bool,
}

/// How a change starts a timer at the moment `now`, by the rules of this version of the trace format; a change that
/// does not say what the timer is to do is refused.
#[tactic(auto, unfolding(kq_model::specs::ChangedKnote::start_in, kq_model::specs::ChangedKnote::period_in))]
fn begin(change: &Change, version: Version, now: u64) -> Beginning
    ensures start { result.start ≡ start_in now (timing_of version change.now.datum change.now.fflags) }
    ensures period { result.period ≡ period_in (timing_of version change.now.datum change.now.fflags) }
    ensures come { result.come ≡ has_come now (timing_of version change.now.datum change.now.fflags) }
{
    match Timing::new(version, change.datum, change.fflags) {
        Ok(timing) => Beginning {
            start: timing.start(now),
            period: timing.period(),
            come: timing.has_come(now),
        },
        Err(_) => Beginning {
            start: now,
            period: 0,
            come: false,
        },
    }
}

impl Knote {
    /// The knote that a first ADD makes, before it is looked at: with the change's actions, and
    /// enabled unless the change says DISABLE. A timer starts at the moment `now`; of a user event the
    /// low 24 bits are stored, whatever the control bits. `target` is what the change names.
    #[tactic(auto, unfolding(kq_model::specs::ChangedKnote::begun, kq_model::specs::ChangedKnote::fresh))]
    pub fn first(change: &Change, target: Option<Target>, version: Version, now: u64) -> Knote
        ensures { (caller : Caller) → target
            ≡ target_of caller.views caller.owner change.now.filter change.now.ident
            → version ≡ caller.version → now ≡ caller.views.now
            → result ≡ begun change.now.filter caller change.now (fresh caller change.now) }
    {
        let knote = fresh(change, target);
        match change.filter {
            Filter::Timer => knote.started(change, version, now),
            Filter::User => Knote {
                bits: change.fflags & NOTE_FFLAGSMASK,
                triggered: change.fflags & NOTE_TRIGGER == NOTE_TRIGGER,
                ..knote
            },
            _ => knote,
        }
    }

    /// As a timer that starts at the moment `now`; one whose moment is not later has expired already.
    #[tactic(auto, unfolding(kq_model::specs::ChangedKnote::started))]
    fn started(self, change: &Change, version: Version, now: u64) -> Knote
        ensures { (caller : Caller) → version ≡ caller.version → now ≡ caller.views.now
            → result ≡ started caller change.now self }
    {
        let begins = begin(change, version, now);
        Knote {
            start: begins.start,
            period: begins.period,
            tally: self.tally.expired_if(begins.come),
            ..self
        }
    }

    /// With ADD a timer starts anew at the moment `now`: what it heard is forgotten, and it is not
    /// active.
    #[tactic(auto, unfolding(kq_model::specs::ChangedKnote::restarted))]
    pub fn restart(&mut self, change: &Change, version: Version, now: u64)
        ensures { (caller : Caller) → version ≡ caller.version → now ≡ caller.views.now
            → self.new ≡ restarted change.now.filter caller change.now self.old }
    {
        if change.filter == Filter::Timer && change.flags.contains(EvFlags::ADD) {
            let anew = Knote {
                tally: Tally::empty(),
                active: false,
                ..*self
            };
            *self = anew.started(change, version, now);
        }
    }

    /// Replaces udata, and with ADD also the parameters; ADD enables unless the change says
    /// DISABLE.
    #[tactic(auto, unfolding(kq_model::specs::ChangedKnote::replaced))]
    pub fn replace(&mut self, change: &Change)
        ensures { self.new ≡ replaced change.now self.old }
    {
        if change.flags.contains(EvFlags::ADD) {
            self.fflags = change.fflags;
            self.datum = change.datum;
            self.enabled = self.enabled || !change.flags.contains(EvFlags::DISABLE);
        }
        self.udata = change.udata;
    }

    /// Of a user event a later change applies its control to the bits, replaces the data, and
    /// triggers where it says so.
    #[tactic(auto, unfolding(kq_model::specs::ChangedKnote::changed))]
    pub fn control(&mut self, change: &Change)
        ensures { self.new ≡ changed change.now.filter change.now self.old }
    {
        if change.filter == Filter::User {
            self.bits = controlled(
                change.fflags / NOTE_FFAND,
                self.bits,
                change.fflags & NOTE_FFLAGSMASK,
            );
            self.datum = change.datum;
            self.triggered = self.triggered || change.fflags & NOTE_TRIGGER == NOTE_TRIGGER;
        }
    }

    /// ENABLE enables and DISABLE disables.
    #[tactic(auto, unfolding(kq_model::specs::ChangedKnote::switched))]
    pub fn switch(&mut self, change: &Change)
        ensures { self.new ≡ switched change.now self.old }
    {
        self.enabled = (self.enabled || change.flags.contains(EvFlags::ENABLE))
            && !change.flags.contains(EvFlags::DISABLE);
    }

    /// What CLEAR and DISPATCH do to a knote that was delivered: CLEAR takes back what it heard and
    /// the trigger of a user event, DISPATCH disables; it is not active.
    #[tactic(auto, unfolding(kq_model::specs::Retrieval::rested, kq_model::specs::Retrieval::reset))]
    pub fn rest(&mut self)
        ensures { self.new ≡ rested self.old }
    {
        if self.clear {
            self.tally = Tally::empty();
            self.triggered = false;
        }
        self.active = false;
        self.enabled = self.enabled && !self.dispatch;
    }
}
