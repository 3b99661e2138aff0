//! A call of kevent(2), for C.
ghost use Rattle.std.specs.Prelude.{◌≡◌, ◌⊎◌, ◌<◌, length};
ghost use Rattle.kq_freebsd.specs.Answers.{events_of};
ghost use Rattle.libkqsim.specs.Steps.{IsCall, IsNoCall, room_of};

use crate::handle::Kqsim;
use kq_freebsd::{CKevent, Refusal, changes_of, hand_out, number_of, refusal_number};
use kq_model::{Event, Kevent, Memory, Reply, Series};
use std::alloc::Global;

/// The room of a call for this array: its length, where that fits into 32 bits.
fn room_of(array: &[CKevent]) -> u32
    ensures { result ≡ room_of array.now }
{
    u32::try_from(array.len()).unwrap_or(u32::MAX)
}

/// The events of an answer.
fn events_of(answer: &Result<Reply, Refusal>) -> &[Kevent]
    ensures { result.now ≡ events_of answer.now }
{
    match answer {
        Ok(Reply::Events(events)) => events.as_slice(),
        _ => &[],
    }
}

/// The record `kevent`: a process calls kevent(2) on its kqueue `fd`, with `changes` and with room for as many events
/// as `events` holds. They are written to its front, and `count` is their number, 0 where the call failed.
#[unsafe(no_mangle)]
pub extern "C" fn kqsim_call(
    alloc: Global,
    sim: &mut Kqsim,
    pid: u32,
    fd: u32,
    changes: &[CKevent],
    events: &mut [CKevent],
    count: &mut usize,
) -> i32
    ensures { IsCall pid fd changes.now events.old events.new sim.old.state sim.new.state count.new result
        ⊎ IsNoCall events.old events.new sim.old.state sim.new.state count.new result }
{
    *count = 0;
    let changes = match changes_of(alloc, changes) {
        Ok(changes) => Series::from_vec(changes),
        Err(Memory) => return refusal_number(Refusal::Memory),
    };
    let room = room_of(events);
    let answer = sim.step(&Event::Kevent {
        pid,
        fd,
        changes,
        room,
    });
    *count = hand_out(events_of(&answer), events);
    number_of(&answer)
}
