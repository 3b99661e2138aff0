//! One change carried out on its knote, whose key then goes where it belongs.

ghost use Rattle.std.specs.Prelude.{◌≡◌, ◌<◌, ◌≤◌, ◌+◌, None, Some, true, is_some, OnSome};
ghost use Rattle.kq_model.specs.Bits.{asks};
ghost use Rattle.kq_model.specs.Call.{number_of};
ghost use Rattle.kq_model.specs.ChangedKnote.{key_of, made, modified};
ghost use Rattle.kq_model.specs.Hearing.{listed};
ghost use Rattle.kq_model.specs.Knote.{find_knote};
ghost use Rattle.kq_model.specs.Kqueue.{Kqueue};
ghost use Rattle.kq_model.specs.Recast.{tallied};
ghost use Rattle.kq_model.specs.Registration.{register, queue_for, is_restart, with_made, with_removed};
ghost use Rattle.kq_model.specs.Registration.{with_modified, without_restarted};
ghost use Rattle.kq_model.specs.RegistrationLaws.{IsRegistered};
ghost use Rattle.kq_model.specs.WatchedNumbers.{WatchTheirNumbers};
ghost use Rattle.kq_kevent.specs.Owned.{caller, limit, IsTalliedRegistration};

use crate::Kq;
use crate::decide::Decision;
use crate::look::attend;
use crate::process::number_of;
use bitflags::Flags;
use kq_knote::{Knote, Knotes};
use kq_model::{Change, Errno, EvFlags, Filter, Key, Views, target_of};
use kq_table::{Place, Placed};

/// Whether the flags have this one. It is `contains`, apart for the prover alone, which knows it by the
/// definitions' name.
pub(crate) fn asks(flags: EvFlags, flag: EvFlags) -> bool
    ensures { result ≡ asks flags flag.0 }
{
    flags.contains(flag)
}

/// Whether a change starts a timer anew, where it is there: an ADD of a TIMER.
#[tactic(auto, unfolding(kq_model::specs::Knote::is_timer))]
fn is_restart(change: &Change) -> bool
    ensures { result ≡ is_restart change.now }
{
    matches!(change.filter, Filter::Timer) && asks(change.flags, EvFlags::ADD)
}

/// Keeps the key of a knote, which stands at the place, where it now belongs: out of the queue when
/// disabled, and when it is to be returned at the back, unless it waits already.
#[tactic(auto, unfolding(kq_model::specs::Registration::queue_for))]
pub(crate) fn place(knotes: &mut Knotes, at: Place, knote: &Knote)
    requires { is_some (find_knote knote.now.key knotes.old.knotes) ≡ true }
    ensures queue { knotes.new.queue ≡ queue_for knote.now knotes.old.queue }
    ensures knotes { knotes.new.knotes ≡ knotes.old.knotes }
    ensures room { knotes.new.room ≡ knotes.old.room }
{
    if !knote.enabled {
        knotes.take_out_at(at, knote.key);
    } else if knote.active {
        knotes.put_in_at(at, knote.key);
    }
}

/// Keeps the key of a knote that a change modified where it now belongs: that of a timer that starts anew
/// leaves the queue first.
fn renew(knotes: &mut Knotes, change: &Change, at: Place, knote: &Knote)
    requires there { is_some (find_knote knote.now.key knotes.old.knotes) ≡ true }
    requires key { knote.now.key ≡ key_of change.now }
    ensures queue { knotes.new.queue ≡ queue_for knote.now (without_restarted change.now knotes.old.queue) }
    ensures knotes { knotes.new.knotes ≡ knotes.old.knotes }
    ensures room { knotes.new.room ≡ knotes.old.room }
{
    if is_restart(change) {
        knotes.take_out_at(at, knote.key);
        place(knotes, at, knote);
    } else {
        place(knotes, at, knote);
    }
}

/// The moment at which it is, as a knote keeps it.
fn clock_of<V: Views>(views: &V) -> u64
    ensures { result ≡ (V.sees views.now).now }
{
    views.now() as u64
}

impl Kq {
    /// Registers one change of a change list: 0, or the number of the error with which it is
    /// refused (kqueue(2), ERRORS). It takes no memory.
    pub fn register<V: Views>(&mut self, change: &Change, views: &V) -> u32
        requires { 0 < self.old.room }
        ensures kq { self.new.kq ≡ (register (caller (V.sees views.now) self.old) change.now self.old.kq).kq }
        ensures error { result
            ≡ number_of (register (caller (V.sees views.now) self.old) change.now self.old.kq).error }
        // What this comes to for a user: other knotes and their order stay, ADD makes no second one,
        // and a change that is refused leaves the knotes and the queue as they are.
        ensures laws { IsRegistered change.now self.old.kq self.new.kq result }

        // Where the READ, WRITE and VNODE knotes watch what their numbers name, they still do.
        ensures named { WatchTheirNumbers (V.sees views.now) self.old.owner self.old.kq
            → WatchTheirNumbers (V.sees views.now) self.old.owner self.new.kq }

        // The same in the words of the definitions, which keep all that was heard.
        ensures model { (m : Kqueue listed) → self.old.kq ≡ tallied m → IsTalliedRegistration self.new.kq result
            (register (caller (V.sees views.now) self.old) change.now m) }

        ensures owner { self.new.owner ≡ self.old.owner }
        ensures version { self.new.version ≡ self.old.version }
        ensures room { self.old.room ≤ self.new.room + 1 }
        ensures limit { limit self.new ≡ limit self.old }
    {
        number_of(self.apply(change, views))
    }

    /// Registers one change, and gives the error with which it is refused.
    pub(crate) fn apply<V: Views>(&mut self, change: &Change, views: &V) -> Option<Errno>
        requires { 0 < self.old.room }
        ensures kq { self.new.kq ≡ (register (caller (V.sees views.now) self.old) change.now self.old.kq).kq }
        ensures error { result ≡ (register (caller (V.sees views.now) self.old) change.now self.old.kq).error }
        ensures refused { OnSome result (self.new.kq ≡ self.old.kq) }
        ensures owner { self.new.owner ≡ self.old.owner }
        ensures version { self.new.version ≡ self.old.version }
        ensures room { self.old.room ≤ self.new.room + 1 }
        ensures limit { limit self.new ≡ limit self.old }
    {
        match self.decide(change, views) {
            Decision::Refuse(error) => Some(error),
            Decision::Remove(found) => {
                self.unmake_at(found.place, change.key());
                None
            }
            Decision::Make => {
                self.make(change, views);
                None
            }
            Decision::Modify(found) => {
                self.modify(&found, change, views);
                None
            }
        }
    }

    /// Makes the knote of a change.
    fn make<V: Views>(&mut self, change: &Change, views: &V)
        requires room { 0 < self.old.room }
        requires absent { find_knote (key_of change.now) self.old.kq.knotes ≡ None }
        ensures kq { self.new.kq ≡ with_made (made (caller (V.sees views.now) self.old) change.now) self.old.kq }
        ensures owner { self.new.owner ≡ self.old.owner }
        ensures version { self.new.version ≡ self.old.version }
        ensures room { self.new.room + 1 ≡ self.old.room }
    {
        let target = target_of(self.owner, change, views);
        let moment = clock_of(views);
        let mut knote = Knote::first(change, target, self.version, moment);
        attend(views, &mut knote);
        self.take_in(knote);
    }

    /// Takes in a knote of a new key, behind the others, and its key where it belongs.
    pub(crate) fn take_in(&mut self, knote: Knote)
        requires room { 0 < self.old.room }
        requires absent { find_knote knote.key self.old.kq.knotes ≡ None }
        ensures kq { self.new.kq ≡ with_made knote self.old.kq }
        ensures owner { self.new.owner ≡ self.old.owner }
        ensures version { self.new.version ≡ self.old.version }
        ensures room { self.new.room + 1 ≡ self.old.room }
        ensures limit { limit self.new ≡ limit self.old }
    {
        let at = self.knotes.attach(knote);
        place(&mut self.knotes, at, &knote);
    }

    /// Takes out the knote of a key, where there is one, and its key from the queue. Where it stands at the
    /// guessed place, no search is made for it.
    pub(crate) fn unmake_at(&mut self, guess: Place, key: Key)
        ensures kq { self.new.kq ≡ with_removed key self.old.kq }
        ensures owner { self.new.owner ≡ self.old.owner }
        ensures version { self.new.version ≡ self.old.version }
        ensures room { self.old.room ≤ self.new.room }
        ensures limit { limit self.new ≡ limit self.old }
    {
        self.knotes.remove_at(guess, key);
    }

    /// Lets a change modify the knote of its key.
    fn modify<V: Views>(&mut self, present: &Placed<Knote>, change: &Change, views: &V)
        requires present { find_knote (key_of change.now) self.old.kq.knotes ≡ Some present.now.row }
        ensures kq { self.new.kq ≡ with_modified change.now
            (modified (caller (V.sees views.now) self.old) change.now present.now.row) self.old.kq }
        ensures owner { self.new.owner ≡ self.old.owner }
        ensures version { self.new.version ≡ self.old.version }
        ensures room { self.new.room ≡ self.old.room }
    {
        let moment = clock_of(views);
        let mut knote = present.row;
        knote.replace(change);
        knote.restart(change, self.version, moment);
        knote.control(change);
        knote.switch(change);
        attend(views, &mut knote);
        self.knotes.modify_at(present.place, knote);
        renew(&mut self.knotes, change, present.place, &knote);
    }
}
