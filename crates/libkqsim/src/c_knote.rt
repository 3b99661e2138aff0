//! A knote as C has it.
ghost use Rattle.std.specs.Prelude.{◌≡◌, ◌≤◌};
ghost use Rattle.libkqsim.specs.Asked.{bit_if, knote_as_c};

use kq_knote::Knote;

/// What is registered under a key: `struct kqsim_knote`.
#[repr(C)]
#[derive(Debug, Drop, Clone, Copy)]
pub struct CKnote {
    /// A pointer in C.
    pub udata: u64,
    /// The filter's own number; kevent(2) calls it data.
    pub datum: i64,
    pub fflags: u32,
    /// ONESHOT, CLEAR and DISPATCH.
    pub flags: u16,
    pub enabled: bool,
    pub active: bool,
}

/// A bit, where it is set.
fn bit_if(set: bool, bit: u16) -> u16
    ensures bit { result ≡ bit_if set bit }
    ensures within { result ≤ bit }
{
    if set { bit } else { 0 }
}

/// The actions of a knote as flags of kevent(2).
fn flags_of(knote: &Knote) -> u16
    ensures { result ≡ (knote_as_c knote.now).flags }
{
    let once = bit_if(knote.oneshot, 0x0010);
    let clear = bit_if(knote.clear, 0x0020);
    let dispatch = bit_if(knote.dispatch, 0x0080);
    once + clear + dispatch
}

/// A knote as C has it.
pub(crate) fn knote_as_c(knote: &Knote) -> CKnote
    ensures { result ≡ knote_as_c knote.now }
{
    CKnote {
        udata: knote.udata,
        datum: knote.datum,
        fflags: knote.fflags,
        flags: flags_of(knote),
        enabled: knote.enabled,
        active: knote.active,
    }
}
