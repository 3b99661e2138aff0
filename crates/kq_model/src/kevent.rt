//! What kevent(2) hands back: an event of a knote, or an entry that answers a change.

use crate::{EvFlags, Filter};

/// One returned event, or one entry that answers a change.
#[derive(Debug, Drop, Clone, Copy, PartialEq, Eq)]
pub struct Kevent {
    pub ident: u64,
    pub filter: Filter,
    /// ONESHOT, CLEAR and DISPATCH of the knote, EOF, or ERROR alone.
    pub flags: EvFlags,
    pub fflags: u32,
    /// The filter's number, or of an entry with ERROR the error; kevent(2) calls it data.
    pub datum: i64,
    pub udata: u64,
}
