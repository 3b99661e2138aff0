//! One entry of the change list that kevent(2) takes, and which knote it is about.

ghost use Rattle.std.specs.Prelude.{◌≡◌};
ghost use Rattle.kq_model.specs.ChangedKnote.{key_of};

use crate::{EvFlags, Filter, Key};

/// One entry of a change list: the fields of a kevent, as kevent(2) takes them.
#[derive(Debug, Drop, Clone, Copy, PartialEq, Eq)]
pub struct Change {
    /// What is watched: a descriptor, a pid, a signal, or a number of the caller's own.
    pub ident: u64,
    pub filter: Filter,
    /// The actions asked for.
    pub flags: EvFlags,
    /// The filter's own flags.
    pub fflags: u32,
    /// The filter's own number; kevent(2) calls it data.
    pub datum: i64,
    /// Kept for the caller and given back with each event.
    pub udata: u64,
}

impl Change {
    /// The key of the knote that the change is about.
    pub fn key(&self) -> Key
        ensures { result ≡ key_of self.now }
    {
        Key {
            ident: self.ident,
            filter: self.filter,
        }
    }
}
