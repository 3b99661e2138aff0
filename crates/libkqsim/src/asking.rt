//! Questions about one kqueue, for C.
ghost use Rattle.std.specs.Prelude.{◌≡◌, ◌≤◌, IfSome};
ghost use Rattle.kq_model.specs.Ticks.{last_moment};
ghost use Rattle.libkqsim.specs.Asked.{IsFoundBy, IsFoundTold, IsNextTold, IsPendingTold, moment_number};

use crate::asked::{Answer, Asked, Question};
use crate::c_knote::{CKnote, knote_as_c};
use crate::handle::Kqsim;
use crate::record::no_argument;
use kq_freebsd::{filter_numbered, reason_number};
use kq_model::Key;

/// FreeBSD's ENOENT.
const NO_ENTRY: i32 = 2;

/// A moment for C, or -1 for none.
fn moment_number(next: Option<u64>) -> i64
    requires { IfSome next (λ moment. moment ≤ last_moment) }
    ensures { result ≡ moment_number next }
{
    match next {
        Some(moment) => moment as i64,
        None => -1,
    }
}

/// The next moment after the clock's at which a timer expires in a kqueue is written to `moment`, or -1 where none
/// does.
#[unsafe(no_mangle)]
pub extern "C" fn kqsim_next(sim: &mut Kqsim, pid: u32, fd: u32, moment: &mut i64) -> i32
    ensures told { IsNextTold pid fd sim.old.state.system moment.old moment.new result }
    ensures same { sim.new.state ≡ sim.old.state }
{
    let question = Question::Next;
    match sim.ask(&Asked { pid, fd, question }) {
        Answer::Next(next) => {
            *moment = moment_number(next);
            0
        }
        Answer::Impossible(why) => reason_number(why),
        _ => unreachable!(),
    }
}

/// How many events a call of kevent(2) with no changes and this room would give now is written to `count`.
#[unsafe(no_mangle)]
pub extern "C" fn kqsim_pending(
    sim: &mut Kqsim,
    pid: u32,
    fd: u32,
    room: u32,
    count: &mut u32,
) -> i32
    ensures told { IsPendingTold pid fd room sim.old.state.system count.old count.new result }
    ensures same { sim.new.state ≡ sim.old.state }
{
    let question = Question::Pending(room);
    match sim.ask(&Asked { pid, fd, question }) {
        Answer::Pending(pending) => {
            *count = pending;
            0
        }
        Answer::Impossible(why) => reason_number(why),
        _ => unreachable!(),
    }
}

/// What is registered under a key.
fn find(sim: &mut Kqsim, pid: u32, fd: u32, key: Key, knote: &mut CKnote) -> i32
    ensures told { IsFoundTold pid fd key sim.old.state.system knote.old knote.new result }
    ensures same { sim.new.state ≡ sim.old.state }
{
    let question = Question::Registered(key);
    match sim.ask(&Asked { pid, fd, question }) {
        Answer::Registered(Some(found)) => {
            *knote = knote_as_c(&found);
            0
        }
        Answer::Registered(None) => NO_ENTRY,
        Answer::Impossible(why) => reason_number(why),
        _ => unreachable!(),
    }
}

/// What is registered for an ident and a filter is written to `knote`.
#[unsafe(no_mangle)]
pub extern "C" fn kqsim_find(
    sim: &mut Kqsim,
    pid: u32,
    fd: u32,
    ident: u64,
    filter: i16,
    knote: &mut CKnote,
) -> i32
    ensures told { IsFoundBy pid fd ident filter sim.old.state.system knote.old knote.new result }
    ensures same { sim.new.state ≡ sim.old.state }
{
    match filter_numbered(filter) {
        Some(filter) => find(sim, pid, fd, Key { ident, filter }, knote),
        None => no_argument(),
    }
}
