//! The changes of a call, one after the other, and the entries that answer them.

ghost use Rattle.std.specs.Prelude.{◌≡◌, ◌≤◌, ◌+◌, [], length, min};
ghost use Rattle.std.specs.Vec.{vec_capacity};
ghost use Rattle.kq_model.specs.Call.{number_of, entry_of, is_answered, process};
ghost use Rattle.kq_kevent.specs.Ending.{answer_of};
ghost use Rattle.kq_kevent.specs.Owned.{caller, limit};

use crate::Kq;
use crate::register::asks;
use kq_model::{Change, Errno, EvFlags, Kevent, Views};

/// How the changes of a call came to their end.
#[derive(Debug, Drop, Clone, Copy)]
pub enum Ending {
    /// All were processed.
    Through,
    /// No room was left for the entry of a change, with its error where it failed.
    Ended(Option<Errno>),
}

/// The number of an error, or 0.
#[tactic(auto, unfolding(kq_model::specs::Call::number_of))]
pub fn number_of(error: Option<Errno>) -> u32
    ensures { result ≡ number_of error }
{
    match error {
        None => 0,
        Some(error) => error.code(),
    }
}

/// The entry that answers a change: with ERROR alone, and the error number or 0 as its data.
#[tactic(auto, unfolding(kq_model::specs::Call::entry_of))]
fn entry_of(change: &Change, error: Option<Errno>) -> Kevent
    ensures { result ≡ entry_of change.now error }
{
    Kevent {
        ident: change.ident,
        filter: change.filter,
        flags: EvFlags::ERROR,
        fflags: change.fflags,
        datum: i64::from(number_of(error)),
        udata: change.udata,
    }
}

/// Whether a change is answered by an entry: it failed, or asks for a receipt.
#[tactic(auto, unfolding(kq_model::specs::Call::is_answered))]
fn is_answered(change: &Change, error: Option<Errno>) -> bool
    ensures { result ≡ is_answered change.now error }
{
    error.is_some() || asks(change.flags, EvFlags::RECEIPT)
}

impl Kq {
    /// Registers the changes in order, and places an entry for each that is answered. Where no
    /// room is left for an entry, the later changes are not processed.
    pub(crate) fn process<V: Views>(
        &mut self,
        changes: &[Change],
        room: usize,
        placed: &mut Vec<Kevent>,
        views: &V,
    ) -> Ending
        requires none { placed.old.items ≡ [] }
        requires room { length changes.now ≤ self.old.room }
        requires capacity { min room (length changes.now) ≤ vec_capacity placed.old }
        ensures processed { process (caller (V.sees views.now) self.old) room changes.now [] self.old.kq
            ≡ record { kq = self.new.kq; placed = placed.new.items; answer = answer_of result placed.new.items } }
        ensures owner { self.new.owner ≡ self.old.owner }
        ensures version { self.new.version ≡ self.old.version }
        ensures room { self.old.room ≤ self.new.room + length changes.now }
        ensures limit { limit self.new ≡ limit self.old }
        ensures queue { length self.new.kq.queue ≤ length self.old.kq.queue + length changes.now }
        ensures capacity { vec_capacity placed.new ≡ vec_capacity placed.old }
    {
        for change in changes {
            let error = self.apply(change, views);
            if is_answered(change, error) {
                if placed.len() >= room {
                    return Ending::Ended(error);
                }
                placed.push_reserved(entry_of(change, error));
            }
        }
        Ending::Through
    }
}
