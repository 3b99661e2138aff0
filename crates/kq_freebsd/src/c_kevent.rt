//! `struct kevent` of C, read as changes and written from events.

ghost use Rattle.std.specs.Prelude.{◌≡◌, ◌≤◌, ◌⊎◌, length, take, IfOk, IfSome};
ghost use Rattle.kq_freebsd.specs.Kevents.{AreChanges, IsChange, IsMadeOf, IsNoChange, IsNoFilter, IsRefusal};
ghost use Rattle.kq_freebsd.specs.Kevents.{as_c, handed_out};
ghost use Rattle.kq_freebsd.specs.Numbers.{filter_number};
ghost use Rattle.kq_model.specs.declared.filter.Filter.TheVariants.{Empty};

use crate::filters::{filter_numbered, number_of_filter};
use bitflags::Flags;
use kq_model::{Change, EvFlags, Filter, Kevent, Memory};
use std::alloc::Global;

/// The flags that a change may have: ADD, DELETE, ENABLE, DISABLE, ONESHOT, CLEAR, RECEIPT, DISPATCH, ERROR and EOF.
const KNOWN: u16 = 0xc0ff;

/// A kevent as C has it: `struct kevent` of FreeBSD's sys/event.h, without its `ext`.
#[repr(C)]
#[derive(Debug, Drop, Clone, Copy)]
pub struct CKevent {
    pub ident: u64,
    pub filter: i16,
    pub flags: u16,
    pub fflags: u32,
    /// kevent(2) calls it data.
    pub datum: i64,
    /// A pointer in C.
    pub udata: u64,
}

/// The change that a kevent of C asks for; none where its filter or one of its flags is not known.
fn change_of(kevent: &CKevent) -> Option<Change>
    ensures known { IfSome result (λ change. IsChange kevent.now change) }
    ensures unknown { result ≡ None → IsNoChange kevent.now }
{
    let filter = filter_numbered(kevent.filter)?;
    if kevent.flags & KNOWN != kevent.flags {
        return None;
    }
    Some(Change {
        ident: kevent.ident,
        filter,
        flags: EvFlags::from_bits_retain(kevent.flags),
        fflags: kevent.fflags,
        datum: kevent.datum,
        udata: kevent.udata,
    })
}

/// The filter of this number, or EMPTY where there is none.
fn filter_or_empty(number: i16) -> Filter
    ensures { (filter_number result ≡ number) ⊎ (IsNoFilter number × (result ≡ Empty)) }
{
    match filter_numbered(number) {
        Some(filter) => filter,
        None => Filter::Empty,
    }
}

/// A change that is refused with EINVAL, in the place of a kevent whose filter or one of whose flags is not known: it
/// would enable and disable.
fn refusal_of(kevent: &CKevent) -> Change
    ensures { IsRefusal kevent.now result }
{
    Change {
        ident: kevent.ident,
        filter: filter_or_empty(kevent.filter),
        flags: EvFlags::from_bits_retain(0x000c),
        fflags: kevent.fflags,
        datum: kevent.datum,
        udata: kevent.udata,
    }
}

/// What is changed for a kevent of C.
fn made_of(kevent: &CKevent) -> Change
    ensures { IsMadeOf kevent.now result }
{
    match change_of(kevent) {
        Some(change) => change,
        None => refusal_of(kevent),
    }
}

/// The changes that kevents of C ask for; where a filter or a flag is not known, one that is refused with EINVAL.
pub fn changes_of(alloc: Global, kevents: &[CKevent]) -> Result<Vec<Change>, Memory>
    ensures { IfOk result (λ changes. AreChanges kevents.now changes.items) }
{
    let mut changes = Vec::new(alloc);
    for kevent in kevents {
        let change = made_of(kevent);
        changes.push(change)?;
    }
    Ok(changes)
}

/// A kevent of the model, as C has it.
fn as_c(event: &Kevent) -> CKevent
    ensures { result ≡ as_c event.now }
{
    CKevent {
        ident: event.ident,
        filter: number_of_filter(event.filter),
        flags: event.flags.bits(),
        fflags: event.fflags,
        datum: event.datum,
        udata: event.udata,
    }
}

/// The lesser of two counts. It is apart for the prover alone, which takes from its contract that it is within
/// both.
fn lesser(a: usize, b: usize) -> usize
    ensures within_a { result ≤ a }
    ensures within_b { result ≤ b }
    ensures one { (result ≡ a) ⊎ (result ≡ b) }
{
    if a < b { a } else { b }
}

/// Writes events to the front of an array, as many as it holds, and gives their count.
pub fn hand_out(events: &[Kevent], array: &mut [CKevent]) -> usize
    ensures array { array.new ≡ handed_out events.now array.old }
    ensures count { result ≡ length (take (length array.old) events.now) }
{
    let count = lesser(events.len(), array.len());
    for i in 0..count {
        array[i] = as_c(&events[i]);
    }
    count
}
