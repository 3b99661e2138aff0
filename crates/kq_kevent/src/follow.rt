//! The children that are followed: each gets a knote of its own, for which there is room.

ghost use Rattle.std.specs.Prelude.{ℕ, ◌≡◌, ◌<◌, ◌≤◌, true, length, OnErr, OnOk};
ghost use Rattle.kq_model.specs.Following.{all_forks, child_knote, follows, followed, followed_each, forks_of, heir};
ghost use Rattle.kq_model.specs.Following.{heir_in, process_key, tracks, with_heir};
ghost use Rattle.kq_model.specs.Kqueue.{HaveOwnKeys};
ghost use Rattle.kq_model.specs.ProcessPlans.{forked};
ghost use Rattle.kq_model.specs.Views as world;
ghost use Rattle.kq_kevent.specs.Owned.{limit, HasRoomToFollow};
ghost use Rattle.kq_kevent.specs.Telling.{fork_told};

use crate::Kq;
use kq_knote::{Knote, Tally};
use kq_model::notes::NOTE_TRACK;
use kq_model::{Filter, Hint, Key, Memory, Target};

/// The key of the PROC knote of a process.
fn process_key(pid: u32) -> Key
    ensures { result ≡ process_key pid }
{
    Key {
        ident: u64::from(pid),
        filter: Filter::Proc,
    }
}

/// The parent and the child, where a hint tells of a fork.
#[tactic(auto, unfolding(kq_model::specs::Following::forks_of, crate::specs::Telling::fork_told))]
fn fork_in(target: Target, hint: Hint) -> Option<(u32, u32)>
    ensures { forks_of target hint ≡ fork_told result }
{
    match (target, hint) {
        (Target::Process(parent), Hint::Child(child)) => Some((parent, child)),
        _ => None,
    }
}

/// Of how many children these hints tell, at most.
fn children_in(hints: &[(Target, Hint)]) -> usize
    ensures most { length (all_forks hints.now) ≤ result }
    ensures within { result ≤ length hints.now }
{
    let mut children = 0;
    for told in hints {
        if fork_in(told.0, told.1).is_some() {
            children += 1;
        }
    }
    children
}

/// Whether the knote of a process follows its children.
fn follows(pid: u32, knote: &Knote) -> bool
    ensures { result ≡ follows pid knote.now }
{
    knote.target == Some(Target::Process(pid)) && knote.fflags & NOTE_TRACK == NOTE_TRACK
}

/// The knote of a child: with the parameters and actions of its parent's, enabled, and with its notice.
fn child_knote(parent: u32, child: u32, of: &Knote) -> Knote
    ensures { result ≡ child_knote (record { parent = parent; child = child }) of.now }
{
    Knote {
        key: process_key(child),
        target: Some(Target::Process(child)),
        enabled: true,
        active: true,
        tally: Tally::empty(),
        notice: Some(parent),
        ..*of
    }
}

/// The knote that the child of a process gets: where the process has one that follows, and the child has none.
#[tactic(auto, unfolding(kq_model::specs::Following::heir))]
fn heir(parent: u32, child: u32, of: Option<Knote>, known: Option<Knote>) -> Option<Knote>
    ensures { result ≡ heir (record { parent = parent; child = child }) of known }
{
    let Some(knote) = of else {
        return None;
    };
    if known.is_some() {
        return None;
    }
    if follows(parent, &knote) {
        Some(child_knote(parent, child, &knote))
    } else {
        None
    }
}

impl Kq {
    /// Each child that a knote follows gets a knote, in the order of the hints. Version 1 follows nobody.
    #[inline(always)]
    pub(crate) fn follow(&mut self, hints: &[(Target, Hint)])
        requires { length (followed self.old.version hints.now self.old.kq).knotes ≤ limit self.old }
        ensures kq { self.new.kq ≡ followed self.old.version hints.now self.old.kq }
        ensures owner { self.new.owner ≡ self.old.owner }
        ensures version { self.new.version ≡ self.old.version }
        ensures limit { limit self.new ≡ limit self.old }
    {
        if self.version.number() == 1 {
            return;
        }
        for told in hints {
            self.follow_one(told.0, told.1);
        }
    }

    /// The child of which a hint tells gets a knote, if it is followed.
    fn follow_one(&mut self, target: Target, hint: Hint)
        requires { length (followed_each (forks_of target hint) self.old.kq).knotes ≤ limit self.old }
        ensures kq { self.new.kq ≡ followed_each (forks_of target hint) self.old.kq }
        ensures owner { self.new.owner ≡ self.old.owner }
        ensures version { self.new.version ≡ self.old.version }
        ensures limit { limit self.new ≡ limit self.old }
    {
        if let Some((parent, child)) = fork_in(target, hint) {
            self.follow_child(parent, child);
        }
    }

    /// The child of a process gets a knote, if it is followed.
    #[inline(never)]
    fn follow_child(&mut self, parent: u32, child: u32)
        requires { length (with_heir (heir_in (record { parent = parent; child = child }) self.old.kq)
            self.old.kq).knotes ≤ limit self.old }
        ensures kq { self.new.kq
            ≡ with_heir (heir_in (record { parent = parent; child = child }) self.old.kq) self.old.kq }
        ensures owner { self.new.owner ≡ self.old.owner }
        ensures version { self.new.version ≡ self.old.version }
        ensures limit { limit self.new ≡ limit self.old }
    {
        let known = self.knotes.get(process_key(child));
        if let Some(knote) = heir(parent, child, self.knotes.get(process_key(parent)), known) {
            self.take_in(knote);
        }
    }

    /// Room for one knote, where the children of the process are followed. It changes nothing else.
    pub fn reserve_fork(&mut self, pid: u32) -> Result<(), Memory>
        ensures kq { self.new.kq ≡ self.old.kq }
        ensures owner { self.new.owner ≡ self.old.owner }
        ensures version { self.new.version ≡ self.old.version }
        ensures room { OnOk result (tracks pid self.old.kq ≡ true → 0 < self.new.room) }
        ensures fork { OnOk result ((views : world.Views) (child : ℕ)
            → HasRoomToFollow views (forked pid child) self.new) }
        ensures kept { self.old.room ≤ self.new.room }
        ensures err { OnErr result (self.new.room ≡ self.old.room) }
        // Memory comes only where the room was missing.
        ensures missing { OnErr result (self.old.room ≡ 0) }
    {
        if !self.tracks(pid) {
            return Ok(());
        }
        self.reserve_for(1, 0)
    }

    /// Room for the knotes of all children of which these hints tell, as `notify` wants it. It changes
    /// nothing else.
    pub fn reserve_to_follow(&mut self, hints: &[(Target, Hint)]) -> Result<(), Memory>
        ensures kq { self.new.kq ≡ self.old.kq }
        ensures owner { self.new.owner ≡ self.old.owner }
        ensures version { self.new.version ≡ self.old.version }
        ensures room { OnOk result ((views : world.Views) → HasRoomToFollow views hints.now self.new) }
        ensures err { OnErr result (self.new.room ≡ self.old.room) }
        // Memory comes only where children are followed, and where there was less room than hints.
        ensures missing { OnErr result ((self.old.version ≡ 1 → ⊥) × (self.old.room < length hints.now)) }
    {
        if self.version.number() == 1 {
            return Ok(());
        }
        let children = children_in(hints);
        self.reserve_for(children, 0)
    }

    /// Whether the children of a process are followed.
    #[tactic(auto, unfolding(kq_model::specs::Following::is_follower))]
    pub fn tracks(&self, pid: u32) -> bool
        ensures tracks { result ≡ tracks pid self.now.kq }
        // Of every kqueue.
        ensures own_keys { HaveOwnKeys self.now.kq.knotes }
    {
        match self.knotes.get(process_key(pid)) {
            None => false,
            Some(knote) => follows(pid, &knote),
        }
    }
}
