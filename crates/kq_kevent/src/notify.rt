//! Hints brought to the knotes that they are for, which then are looked at and queued.

ghost use Rattle.std.specs.Prelude.{◌≡◌, ◌≤◌, [], Some, false, true};
ghost use Rattle.kq_model.specs.ChangedKnote.{activated};
ghost use Rattle.kq_model.specs.Following.{followed};
ghost use Rattle.kq_model.specs.Hearing.{listed};
ghost use Rattle.kq_model.specs.HintLaws.{IsNotified};
ghost use Rattle.kq_model.specs.Hints.{notified};
ghost use Rattle.kq_model.specs.Kqueue.{HaveOwnKeys, IsSound, Kqueue};
ghost use Rattle.kq_model.specs.Knote.{find_knote, with_knote};
ghost use Rattle.kq_model.specs.Look.{look};
ghost use Rattle.kq_model.specs.Alerting.{is_for, left_by, with_alerted, alerted_at};
ghost use Rattle.kq_model.specs.Recast as recast;
ghost use Rattle.kq_model.specs.Registration.{queue_for};
ghost use Rattle.kq_model.specs.Views as world;
ghost use Rattle.kq_model.specs.WatchedNumbers.{LeavesOpen, WatchTheirNumbers};
ghost use Rattle.kq_knote.specs.Index.{hinted_keys, IsOnly};
ghost use Rattle.kq_kevent.specs.Owned.{limit, HasRoomToFollow};
ghost use Rattle.kq_kevent.specs.Telling.{is_plain, told_one, told_all, with_put};
ghost use Rattle.kq_kevent.specs.Telling.{AreLeft, HeardMore, Leaves, StandsFor};

use crate::Kq;
use crate::look::look_in;
use crate::register::place;
use kq_filters::{Heard, hear, takes};
use kq_knote::{Knote, only_target};
use kq_model::{Hint, Key, Target, Views};
use kq_table::{Place, Placed};

/// A knote that is being told the hints of a record.
#[derive(Debug, Drop, Clone, Copy)]
pub struct Telling {
    /// As it is after those that it was told.
    pub knote: Knote,
    /// It was told one.
    pub any: bool,
    /// At one of them it was to go.
    pub done: bool,
}

/// Whether a hint is for the knote's target, and its filter takes it.
fn is_for(knote: &Knote, target: Target, hint: Hint) -> bool
    ensures { result ≡ is_for knote.now (target, hint) }
{
    knote.target == Some(target) && takes(knote.key.filter, hint)
}

/// Tells a knote the next hint of a record, where it is for it.
#[tactic(auto, unfolding(crate::specs::Telling::told_one))]
fn tell(telling: &mut Telling, target: Target, hint: Hint)
    ensures { telling.new ≡ told_one (target, hint) telling.old }
{
    if !is_for(&telling.knote, target, hint) {
        return;
    }
    let heard = hear(&mut telling.knote, hint);
    telling.any = true;
    telling.done = telling.done || heard == Heard::Drop;
}

/// Tells a knote the hints of a record that are for it, in their order.
fn tell_all(knote: Knote, hints: &[(Target, Hint)]) -> Telling
    ensures { result ≡ told_all hints.now (record { knote = knote; any = false; done = false }) }
{
    let mut telling = Telling {
        knote,
        any: false,
        done: false,
    };
    for posted in hints {
        tell(&mut telling, posted.0, posted.1);
    }
    telling
}

/// Looks at a knote, enabled or not; it is active where the look sees something.
#[tactic(auto, unfolding(kq_model::specs::ChangedKnote::activated))]
fn looked_at<V: Views>(views: &V, knote: Knote) -> Knote
    ensures { result ≡ activated (look (V.sees views.now) knote) knote }
{
    let active = knote.active || look_in(views, &knote).is_some();
    Knote { active, ..knote }
}

/// Whether a hint tells no more than that there may be something to read or to write.
#[tactic(auto, unfolding(crate::specs::Telling::is_plain))]
fn is_plain(hint: Hint) -> bool
    ensures { result ≡ is_plain hint }
{
    matches!(hint, Hint::Readable | Hint::Writable)
}

/// Whether a hint is known to leave a knote as it is.
fn leaves(knote: &Knote, target: Target, hint: Hint) -> bool
    ensures { result ≡ true → Leaves knote.now (target, hint) }
{
    if is_plain(hint) {
        return true;
    }
    !is_for(knote, target, hint)
}

/// Whether all hints of a record are known to leave a knote as it is.
fn is_left(knote: &Knote, hints: &[(Target, Hint)]) -> bool
    ensures { result ≡ true → AreLeft knote.now hints.now }
{
    for posted in hints {
        if !leaves(knote, posted.0, posted.1) {
            return false;
        }
    }
    true
}

/// Whether a knote is active, and the hints leave it as it is.
fn is_content(knote: &Knote, hints: &[(Target, Hint)]) -> bool
    ensures active { result ≡ true → knote.now.active ≡ true }
    ensures left { result ≡ true → AreLeft knote.now hints.now }
{
    knote.active && is_left(knote, hints)
}

impl Kq {
    /// The knotes of the hinted targets hear the hints of a record, in order of registration; each
    /// is looked at in the world after the record, becomes active where its condition holds, and
    /// goes to the back of the queue where it is enabled and not there. A PROC knote whose process
    /// has exited is gone where it has nothing to tell. Then each child that a knote follows gets a knote
    /// of its own, for which there is room. It takes no memory.
    pub fn notify<V: Views>(&mut self, hints: &[(Target, Hint)], views: &V)
        requires { HasRoomToFollow (V.sees views.now) hints.now self.old }
        ensures kq { self.new.kq
            ≡ followed self.old.version hints.now (notified (V.sees views.now) hints.now self.old.kq) }
        // What this comes to for a user: no knote comes by what the knotes hear, the others keep their order, and the
        // queue keeps its own and has those that begin to wait behind it, in order of registration.
        ensures laws { IsNotified self.old.kq (notified (V.sees views.now) hints.now self.old.kq) }

        // The same in the words of the definitions, which keep all that was heard.
        ensures model { (m : Kqueue listed) → self.old.kq ≡ recast.tallied m → self.new.kq
            ≡ recast.tallied (followed self.old.version hints.now (notified (V.sees views.now) hints.now m)) }

        // Where the READ, WRITE and VNODE knotes watched what their numbers named, in the same world or
        // before a record that closes none of these, they watch what they name now.
        ensures named { (before : world.Views) → LeavesOpen before (V.sees views.now) self.old.owner []
            → WatchTheirNumbers before self.old.owner self.old.kq
            → WatchTheirNumbers (V.sees views.now) self.old.owner self.new.kq }

        ensures owner { self.new.owner ≡ self.old.owner }
        ensures version { self.new.version ≡ self.old.version }
        ensures limit { limit self.new ≡ limit self.old }
    {
        self.hear(hints, views);
        self.follow(hints);
    }

    /// The knotes of the hinted targets hear the hints of a record.
    fn hear<V: Views>(&mut self, hints: &[(Target, Hint)], views: &V)
        ensures kq { self.new.kq ≡ notified (V.sees views.now) hints.now self.old.kq }
        ensures sound { IsSound self.old.kq }
        ensures owner { self.new.owner ≡ self.old.owner }
        ensures version { self.new.version ≡ self.old.version }
        ensures room { self.old.room ≤ self.new.room }
        ensures limit { limit self.new ≡ limit self.old }
    {
        let Some(target) = only_target(hints) else {
            self.notice_hinted(hints, views);
            return;
        };
        if self.is_unmoved(target, hints) {
            return;
        }
        self.notice_watchers(target, hints, views);
    }

    /// Whether one knote alone watches the one hinted target, is active, and is known to be left as it is. Then no more
    /// of the kqueue is looked at.
    #[inline(always)]
    fn is_unmoved(&self, target: Target, hints: &[(Target, Hint)]) -> bool
        requires { IsOnly target hints.now }
        ensures unmoved { result ≡ true → (seen : world.Views)
            → notified seen hints.now self.now.kq ≡ self.now.kq }
        ensures sound { IsSound self.now.kq }
    {
        let Some(knote) = self.knotes.lone_watcher(target) else {
            return false;
        };
        is_content(knote, hints)
    }

    /// The knotes of the one hinted target hear the hints, by a walk from each to the next.
    #[inline(never)]
    fn notice_watchers<V: Views>(&mut self, target: Target, hints: &[(Target, Hint)], views: &V)
        requires { IsOnly target hints.now }
        ensures kq { self.new.kq ≡ notified (V.sees views.now) hints.now self.old.kq }
        ensures sound { IsSound self.old.kq }
        ensures owner { self.new.owner ≡ self.old.owner }
        ensures version { self.new.version ≡ self.old.version }
        ensures room { self.old.room ≤ self.new.room }
        ensures limit { limit self.new ≡ limit self.old }
    {
        let mut next = self.knotes.first_watcher(target);
        for _step in 0..self.knotes.len() {
            let Some(watcher) = next else {
                return;
            };
            next = self.knotes.next_watcher(watcher.place, watcher.key);
            self.notice(watcher.place, watcher.key, hints, views);
        }
    }

    /// The knotes of any hinted targets hear the hints.
    #[inline(never)]
    fn notice_hinted<V: Views>(&mut self, hints: &[(Target, Hint)], views: &V)
        ensures kq { self.new.kq ≡ notified (V.sees views.now) hints.now self.old.kq }
        ensures sound { IsSound self.old.kq }
        ensures owner { self.new.owner ≡ self.old.owner }
        ensures version { self.new.version ≡ self.old.version }
        ensures room { self.old.room ≤ self.new.room }
        ensures limit { limit self.new ≡ limit self.old }
    {
        let Some(keys) = self.knotes.take_hinted(hints) else {
            self.notice_all(hints, views);
            return;
        };
        self.notice_each(keys.as_slice(), hints, views);
        self.knotes.give_back(keys);
    }

    /// The knotes of any hinted targets hear the hints, by a walk over all knotes. Those that no hint is for stay
    /// as they are.
    fn notice_all<V: Views>(&mut self, hints: &[(Target, Hint)], views: &V)
        ensures kq { self.new.kq ≡ notified (V.sees views.now) hints.now self.old.kq }
        ensures owner { self.new.owner ≡ self.old.owner }
        ensures version { self.new.version ≡ self.old.version }
        ensures room { self.old.room ≤ self.new.room }
        ensures limit { limit self.new ≡ limit self.old }
    {
        let mut next = self.knotes.first();
        for _step in 0..self.knotes.len() {
            let Some(knote) = next else {
                return;
            };
            next = self.knotes.next_after(knote.key);
            let guess = self.knotes.guess(knote.key);
            self.notice(guess, knote.key, hints, views);
        }
    }

    /// The hinted knotes, of which these are the keys, hear the hints.
    fn notice_each<V: Views>(&mut self, keys: &[Key], hints: &[(Target, Hint)], views: &V)
        requires { keys.now ≡ hinted_keys hints.now self.old.kq.knotes }
        ensures kq { self.new.kq ≡ notified (V.sees views.now) hints.now self.old.kq }
        ensures owner { self.new.owner ≡ self.old.owner }
        ensures version { self.new.version ≡ self.old.version }
        ensures room { self.old.room ≤ self.new.room }
        ensures limit { limit self.new ≡ limit self.old }
    {
        for (index, key) in keys.iter().enumerate() {
            let guess = self.knotes.place_of(index);
            self.notice(guess, *key, hints, views);
        }
    }

    /// The knote of a key hears the hints for it, is looked at and goes where it belongs. Where it is active and they
    /// leave it as it is, that is all.
    fn notice<V: Views>(&mut self, guess: Place, key: Key, hints: &[(Target, Hint)], views: &V)
        ensures kq { self.new.kq
            ≡ alerted_at (V.sees views.now) hints.now (find_knote key self.old.kq.knotes) self.old.kq }
        // Of every kqueue.
        ensures own_keys { HaveOwnKeys self.old.kq.knotes }
        ensures owner { self.new.owner ≡ self.old.owner }
        ensures version { self.new.version ≡ self.old.version }
        ensures room { self.old.room ≤ self.new.room }
        ensures limit { limit self.new ≡ limit self.old }
    {
        if self.is_settled(guess, key, hints) {
            return;
        }
        self.tell_at(guess, key, hints, views);
    }

    /// Whether the knote of a key is active, and the hints are known to leave it as it is.
    fn is_settled(&self, guess: Place, key: Key, hints: &[(Target, Hint)]) -> bool
        ensures settled { result ≡ true → (seen : world.Views)
            → alerted_at seen hints.now (find_knote key self.now.kq.knotes) self.now.kq ≡ self.now.kq }
        // Of every kqueue.
        ensures own_keys { HaveOwnKeys self.now.kq.knotes }
    {
        let Some(knote) = self.knotes.look_at(guess, key) else {
            return false;
        };
        is_content(knote, hints)
    }

    /// The knote of a key hears the hints for it, is looked at and goes where it belongs.
    fn tell_at<V: Views>(&mut self, guess: Place, key: Key, hints: &[(Target, Hint)], views: &V)
        ensures kq { self.new.kq
            ≡ alerted_at (V.sees views.now) hints.now (find_knote key self.old.kq.knotes) self.old.kq }
        ensures owner { self.new.owner ≡ self.old.owner }
        ensures version { self.new.version ≡ self.old.version }
        ensures room { self.old.room ≤ self.new.room }
        ensures limit { limit self.new ≡ limit self.old }
    {
        let Some(found) = self.knotes.locate_at(guess, key) else {
            return;
        };
        let told = tell_all(found.row, hints);
        if told.any {
            self.leave(&found, told.knote, told.done, views);
        }
    }

    /// What becomes of a knote that was told hints: it is gone, or is looked at and goes where it
    /// belongs.
    fn leave<V: Views>(&mut self, found: &Placed<Knote>, told: Knote, done: bool, views: &V)
        requires stands { StandsFor found.now.row told self.old.kq.knotes }
        requires more { HeardMore found.now.row told }
        ensures kq { self.new.kq ≡ with_alerted told (left_by (V.sees views.now) done told) self.old.kq }
        ensures owner { self.new.owner ≡ self.old.owner }
        ensures version { self.new.version ≡ self.old.version }
        ensures room { self.old.room ≤ self.new.room }
        ensures limit { limit self.new ≡ limit self.old }
    {
        if done && told.has_nothing() {
            self.unmake_at(found.place, told.key);
        } else {
            self.stay(found, told, views);
        }
    }

    /// What becomes of a knote that was told hints and stays: one that was active is not looked at, and stands where it
    /// belongs.
    fn stay<V: Views>(&mut self, found: &Placed<Knote>, told: Knote, views: &V)
        requires stands { StandsFor found.now.row told self.old.kq.knotes }
        requires more { HeardMore found.now.row told }
        ensures kq { self.new.kq ≡ with_put (activated (look (V.sees views.now) told) told) self.old.kq }
        ensures owner { self.new.owner ≡ self.old.owner }
        ensures version { self.new.version ≡ self.old.version }
        ensures room { self.new.room ≡ self.old.room }
        ensures limit { limit self.new ≡ limit self.old }
    {
        if told.active {
            self.keep(found, told);
        } else {
            self.put_back(found, looked_at(views, told));
        }
    }

    /// Keeps what an active knote heard, whose key stays where it is.
    fn keep(&mut self, found: &Placed<Knote>, told: Knote)
        requires active { told.active ≡ true }
        requires there { find_knote told.key self.old.kq.knotes ≡ Some found.now.row }
        requires more { HeardMore found.now.row told }
        ensures kq { self.new.kq ≡ with_put told self.old.kq }
        ensures owner { self.new.owner ≡ self.old.owner }
        ensures version { self.new.version ≡ self.old.version }
        ensures room { self.new.room ≡ self.old.room }
        ensures limit { limit self.new ≡ limit self.old }
    {
        self.knotes.modify_at(found.place, told);
    }

    /// Puts a knote in the place of the one of its key, and its key where it belongs.
    pub(crate) fn put_back(&mut self, found: &Placed<Knote>, knote: Knote)
        requires { StandsFor found.now.row knote self.old.kq.knotes }
        ensures kq { self.new.kq
            ≡ record { knotes = with_knote knote self.old.kq.knotes; queue = queue_for knote self.old.kq.queue } }
        ensures owner { self.new.owner ≡ self.old.owner }
        ensures version { self.new.version ≡ self.old.version }
        ensures room { self.new.room ≡ self.old.room }
        ensures limit { limit self.new ≡ limit self.old }
    {
        self.knotes.modify_at(found.place, knote);
        place(&mut self.knotes, found.place, &knote);
    }
}
