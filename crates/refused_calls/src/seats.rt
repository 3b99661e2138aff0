//! Two seats of one live system.
ghost use Rattle.std.specs.Prelude.{◌≡◌, IfOk, IfSome};
ghost use Rattle.kq_lock.specs.Seats.{EachSeat, IsFresh};

mod events;
mod told;

use crate::Outcome;
use crate::fault::Fault;
use events::{add, kqueue, moment, poll, process, ring};
use kq_live::{Live, LiveError, LiveReceipt, LiveSeat};
use kq_model::Event;
use std::alloc::Global;
use std::sync::Wait;
use told::Told;

/// How a seat makes a call.
#[derive(Drop, Clone, Copy)]
enum Way {
    /// It waits for its turn.
    Waiting,
    /// In a single try.
    Once,
}

/// The calls of two seats, and the end of their live system. Each call is made once more where `Memory` was answered.
pub fn shared<R: Wait>(rt: &R, alloc: Global) -> Result<Outcome, Fault> {
    let (live, mut seats) = Live::new(alloc, 1, 2)?;
    let (mut one, mut two) = both_seats(&live, &mut seats)?;
    let told = all_called(rt, alloc, &live, &mut one, &mut two)?;
    let book = live.close(one)?;
    told.end(alloc, &book)
}

/// The calls of one seat add a user event and let it happen. The other learns what the first has seen, and asks for
/// what happened. At last the first sets the clock, in a single try.
fn all_called<R: Wait>(
    rt: &R,
    alloc: Global,
    live: &Live,
    one: &mut LiveSeat,
    two: &mut LiveSeat,
) -> Result<Told, Fault>
    requires one { one.old.lock ≡ live.now.lock }
    requires two { two.old.lock ≡ live.now.lock }
    ensures { one.new.lock ≡ live.now.lock }
{
    let told = Told::new(alloc);
    let told = called(rt, live, one, &process(), Way::Waiting, told)?;
    let told = called(rt, live, one, &kqueue(), Way::Waiting, told)?;
    let told = called(rt, live, one, &add(alloc)?, Way::Waiting, told)?;
    let told = called(rt, live, one, &ring(alloc)?, Way::Waiting, told)?;
    let part = live.split(one);
    live.join(two, part);
    let told = called(rt, live, two, &poll(alloc), Way::Waiting, told)?;
    called(rt, live, one, &moment(), Way::Once, told)
}

/// One of the seats that a live system was made with.
fn next_seat(live: &Live, seats: &mut Vec<LiveSeat>) -> Option<LiveSeat>
    requires { EachSeat (IsFresh live.now.lock) seats.old.items }
    ensures seat { IfSome result (λ s. s.lock ≡ live.now.lock) }
    ensures rest { EachSeat (IsFresh live.now.lock) seats.new.items }
{
    let _ = live;
    seats.pop()
}

/// Both seats of a live system that was made with two.
fn both_seats(live: &Live, seats: &mut Vec<LiveSeat>) -> Result<(LiveSeat, LiveSeat), Fault>
    requires { EachSeat (IsFresh live.now.lock) seats.old.items }
    ensures one { IfOk result (λ both. both.0.lock ≡ live.now.lock) }
    ensures two { IfOk result (λ both. both.1.lock ≡ live.now.lock) }
{
    let one = next_seat(live, seats).ok_or(Fault::Refused)?;
    let two = next_seat(live, seats).ok_or(Fault::Refused)?;
    Ok((one, two))
}

/// Makes the call with an event, once more where `Memory` was answered, and adds what it tells.
fn called<R: Wait>(
    rt: &R,
    live: &Live,
    seat: &mut LiveSeat,
    event: &Event,
    way: Way,
    told: Told,
) -> Result<Told, Fault>
    requires { seat.old.lock ≡ live.now.lock }
    ensures { seat.new.lock ≡ live.now.lock }
{
    match tried(rt, live, seat, event.copy()?, way) {
        Err(LiveError::Memory) => {
            let receipt = tried(rt, live, seat, event.copy()?, way)?;
            told.with_refusal().with(&receipt)
        }
        answered => told.with(&answered?),
    }
}

fn tried<R: Wait>(
    rt: &R,
    live: &Live,
    seat: &mut LiveSeat,
    event: Event,
    way: Way,
) -> Result<LiveReceipt, LiveError>
    requires { seat.old.lock ≡ live.now.lock }
    ensures { seat.new.lock ≡ live.now.lock }
{
    match way {
        Way::Waiting => live.call(rt, seat, event),
        Way::Once => live.try_call(seat, event),
    }
}
