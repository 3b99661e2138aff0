//! Events taken out by one walk over the queue, and what a delivery does to a knote.

ghost use Rattle.std.specs.Prelude.{◌≡◌, ◌+◌, ◌<◌, ◌≤◌, ◌∷◌, ◌++◌, List, []};
ghost use Rattle.std.specs.Prelude.{None, Some, false, true};
ghost use Rattle.std.specs.Prelude.{is_some, length, min};
ghost use Rattle.std.specs.Vec.{vec_capacity};
ghost use Rattle.kq_model.specs.Knote.{has_key, find_knote};
ghost use Rattle.kq_model.specs.Look.{look};
ghost use Rattle.kq_model.specs.Retrieval.{knotes_after, back_after, without_notice, with_notice_told};
ghost use Rattle.kq_model.specs.Retrieval.{with_delivered, turned, retrieval, stays};
ghost use Rattle.kq_model.specs.Tallied.{Knote as Tallied};
ghost use Rattle.kq_model.specs.declared.key.Key.{Key};
ghost use Rattle.kq_kevent.specs.Owned.{kqueue_in, limit};

use crate::Kq;
use crate::look::{event_of, look_in};
use kq_filters::Seen;
use kq_knote::{Knote, Knotes};
use kq_model::{Kevent, Key, Views};
use kq_table::{Place, Placed};

/// Puts the key of a knote, which is not in the queue, behind the others. It is `put_in_at`, apart for the prover
/// alone, to which there is no other case then.
fn put_last(knotes: &mut Knotes, at: Place, key: Key)
    requires there { is_some (find_knote key knotes.old.knotes) ≡ true }
    requires absent { has_key key knotes.old.queue ≡ false }
    ensures queue { knotes.new.queue ≡ knotes.old.queue ++ key ∷ [] }
    ensures knotes { knotes.new.knotes ≡ knotes.old.knotes }
    ensures room { knotes.new.room ≡ knotes.old.room }
{
    knotes.put_in_at(at, key);
}

/// What becomes of a knote, whose key was taken out of the queue, once it was delivered: with ONESHOT it is
/// deleted; else with CLEAR or DISPATCH it rests; else its key goes to the back.
#[tactic(auto, unfolding(kq_model::specs::Retrieval::knotes_after, kq_model::specs::Retrieval::back_after))]
fn settle(knotes: &mut Knotes, delivered: &Placed<Knote>)
    requires there { find_knote delivered.now.row.key knotes.old.knotes ≡ Some delivered.now.row }
    requires absent { has_key delivered.now.row.key knotes.old.queue ≡ false }
    ensures knotes { knotes.new.knotes ≡ knotes_after delivered.now.row knotes.old.knotes }
    ensures queue { knotes.new.queue ≡ back_after delivered.now.row knotes.old.queue }
    ensures room { knotes.old.room ≤ knotes.new.room }
    ensures limit { length knotes.new.knotes + knotes.new.room ≡ length knotes.old.knotes + knotes.old.room }
{
    let knote = delivered.row;
    if knote.oneshot {
        knotes.remove_at(delivered.place, knote.key);
    } else if knote.clear || knote.dispatch {
        let mut rested = knote;
        rested.rest();
        knotes.modify_at(delivered.place, rested);
    } else {
        put_last(knotes, delivered.place, knote.key);
    }
}

/// What becomes of a knote whose notice was delivered: it is taken back, and nothing else is reset, disabled or
/// deleted; the knote is looked at again, and goes to the back or is not active.
#[tactic(auto, unfolding(kq_model::specs::Retrieval::with_notice_told))]
fn take_back<V: Views>(knotes: &mut Knotes, told: &Placed<Knote>, views: &V)
    requires there { find_knote told.now.row.key knotes.old.knotes ≡ Some told.now.row }
    requires absent { has_key told.now.row.key knotes.old.queue ≡ false }
    ensures kq { kqueue_in knotes.new ≡ with_notice_told (without_notice told.now.row)
        (kqueue_in knotes.old) (look (V.sees views.now) (without_notice told.now.row)) }
    ensures room { knotes.new.room ≡ knotes.old.room }
{
    let mut rest = told.row;
    rest.notice = None;
    if look_in(views, &rest).is_some() {
        knotes.modify_at(told.place, rest);
        put_last(knotes, told.place, rest.key);
    } else {
        rest.active = false;
        knotes.modify_at(told.place, rest);
    }
}

/// What becomes of a knote that was delivered, by its notice if it had one.
#[tactic(auto, unfolding(kq_model::specs::Retrieval::settled))]
fn deliver<V: Views>(knotes: &mut Knotes, delivered: &Placed<Knote>, views: &V)
    requires there { find_knote delivered.now.row.key knotes.old.knotes ≡ Some delivered.now.row }
    requires absent { has_key delivered.now.row.key knotes.old.queue ≡ false }
    ensures kq { kqueue_in knotes.new
        ≡ with_delivered (V.sees views.now) delivered.now.row (kqueue_in knotes.old) }
    ensures room { knotes.old.room ≤ knotes.new.room }
    ensures limit { length knotes.new.knotes + knotes.new.room ≡ length knotes.old.knotes + knotes.old.room }
{
    match delivered.row.notice {
        None => settle(knotes, delivered),
        Some(_) => take_back(knotes, delivered, views),
    }
}

/// Whether a knote that is delivered stays as it is: it has no notice, and neither ONESHOT nor CLEAR nor DISPATCH.
#[tactic(auto, unfolding(kq_model::specs::Retrieval::stays))]
#[inline(always)]
fn stays(knote: &Knote) -> bool
    ensures level { result ≡ true → stays knote.now ≡ true }
    ensures told { result ≡ true → knote.now.notice ≡ None }
{
    !(knote.oneshot || knote.clear || knote.dispatch) && knote.notice.is_none()
}

impl Kq {
    /// Looks at the knote whose key is at the front of the queue: an event is delivered where the condition still
    /// holds, else the knote becomes inactive. A knote that stays as it is has only its key taken to the back.
    #[inline(always)]
    fn turn<V: Views>(&mut self, views: &V) -> Option<Kevent>
        requires { 0 < length self.old.kq.queue }
        ensures kq { (key : Key) (rest : List Key) → self.old.kq.queue ≡ key ∷ rest
            → self.new.kq ≡ (turned (V.sees views.now) key (record self.old.kq { queue = rest })).kq }
        ensures event { (key : Key) (rest : List Key) → self.old.kq.queue ≡ key ∷ rest
            → result ≡ (turned (V.sees views.now) key (record self.old.kq { queue = rest })).event }
        ensures owner { self.new.owner ≡ self.old.owner }
        ensures version { self.new.version ≡ self.old.version }
        ensures room { self.old.room ≤ self.new.room }
        ensures limit { limit self.new ≡ limit self.old }
    {
        let Some(front) = self.knotes.look_front() else {
            unreachable!();
        };
        let found = look_in(views, front);
        if let Some(seen) = found
            && stays(front)
        {
            let event = event_of(front, seen);
            self.knotes.turn();
            return Some(event);
        }
        self.turn_out(views, found)
    }

    /// Takes the knote whose key is at the front out of the queue: it is delivered by what it sees, or becomes
    /// inactive where it sees nothing.
    #[inline(never)]
    fn turn_out<V: Views>(&mut self, views: &V, seen: Option<Seen>) -> Option<Kevent>
        requires some { 0 < length self.old.kq.queue }
        requires seen { (knote : Tallied) (rest : List Key) → self.old.kq.queue ≡ knote.key ∷ rest
            → find_knote knote.key self.old.kq.knotes ≡ Some knote → look (V.sees views.now) knote ≡ seen }
        ensures kq { (key : Key) (rest : List Key) → self.old.kq.queue ≡ key ∷ rest
            → self.new.kq ≡ (turned (V.sees views.now) key (record self.old.kq { queue = rest })).kq }
        ensures event { (key : Key) (rest : List Key) → self.old.kq.queue ≡ key ∷ rest
            → result ≡ (turned (V.sees views.now) key (record self.old.kq { queue = rest })).event }
        ensures owner { self.new.owner ≡ self.old.owner }
        ensures version { self.new.version ≡ self.old.version }
        ensures room { self.old.room ≤ self.new.room }
        ensures limit { limit self.new ≡ limit self.old }
    {
        let Some(found) = self.knotes.take_front() else {
            unreachable!();
        };
        match seen {
            None => {
                let mut idle = found.row;
                idle.active = false;
                self.knotes.modify_at(found.place, idle);
                None
            }
            Some(seen) => {
                deliver(&mut self.knotes, &found, views);
                Some(event_of(&found.row, seen))
            }
        }
    }

    /// Takes at most `room` events out of the kqueue. The queue as it stands is gone through once
    /// from the front; what goes to the back meanwhile is not met again.
    pub(crate) fn retrieve<V: Views>(&mut self, room: usize, events: &mut Vec<Kevent>, views: &V)
        requires none { events.old.items ≡ [] }
        requires capacity { min room (length self.old.kq.queue) ≤ vec_capacity events.old }
        ensures retrieved { retrieval (V.sees views.now) room self.old.kq
            ≡ record { kq = self.new.kq; events = events.new.items } }
        ensures owner { self.new.owner ≡ self.old.owner }
        ensures version { self.new.version ≡ self.old.version }
        ensures room { self.old.room ≤ self.new.room }
        ensures limit { limit self.new ≡ limit self.old }
    {
        for _turn in 0..self.knotes.queue_len() {
            if events.len() == room {
                return;
            }
            if let Some(event) = self.turn(views) {
                events.push_reserved(event);
            }
        }
    }
}
