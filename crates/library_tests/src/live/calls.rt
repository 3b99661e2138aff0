//! Calls of one thread by two seats.
ghost use Rattle.std.specs.Prelude.{◌≡◌, ◌-◌, ◌^◌, ◌≤◌, IfOk, IfSome};
ghost use Rattle.kq_lock.specs.Seats.{EachSeat, IsFresh};

use kq_live::{Book, Live, LiveError, LiveReceipt, LiveSeat};
use kq_model::notes::NOTE_TRIGGER;
use kq_model::{Change, EvFlags, Event, Filter, Memory, Reply, Row, Series};
use std::alloc::Global;
use std::process::Abort;
use std::sync::Wait;
use std::test::Fail;

// One of the seats that a live system was made with.
fn next_seat(live: &Live, seats: &mut Vec<LiveSeat>) -> Option<LiveSeat>
    requires { EachSeat (IsFresh live.now.lock) seats.old.items }
    ensures seat { IfSome result (λ s. s.lock ≡ live.now.lock) }
    ensures rest { EachSeat (IsFresh live.now.lock) seats.new.items }
{
    let _ = live;
    seats.pop()
}

// Both seats of a live system that was made with two.
fn both_seats(live: &Live, seats: &mut Vec<LiveSeat>) -> Result<(LiveSeat, LiveSeat), Fail>
    requires { EachSeat (IsFresh live.now.lock) seats.old.items }
    ensures one { IfOk result (λ both. both.0.lock ≡ live.now.lock) }
    ensures two { IfOk result (λ both. both.1.lock ≡ live.now.lock) }
{
    let one = next_seat(live, seats).ok_or("a seat")?;
    let two = next_seat(live, seats).ok_or("a second seat")?;
    Ok((one, two))
}

// A live system with one seat, for so many calls at most.
pub fn with_one_seat(alloc: Global, last: u64) -> Result<(Live, LiveSeat), Fail>
    requires { last ≤ 2 ^ 31 - 1 }
    ensures { IfOk result (λ made. made.1.lock ≡ made.0.lock) }
{
    let (live, mut seats) = Live::with_last(alloc, 1, 1, last)?;
    let seat = next_seat(&live, &mut seats).ok_or("a seat")?;
    Ok((live, seat))
}

// A live system with two seats.
fn with_two_seats(alloc: Global) -> Result<(Live, LiveSeat, LiveSeat), Fail>
    ensures one { IfOk result (λ made. made.1.lock ≡ made.0.lock) }
    ensures two { IfOk result (λ made. made.2.lock ≡ made.0.lock) }
{
    let (live, mut seats) = Live::new(alloc, 1, 2)?;
    let (one, two) = both_seats(&live, &mut seats)?;
    Ok((live, one, two))
}

// Process 1 adds a user event, with these flags of the filter, or asks for an event.
fn call(alloc: Global, added: Option<u32>) -> Result<Event, Memory> {
    let mut changes = Vec::new(alloc);
    if let Some(fflags) = added {
        let change = Change {
            ident: 7,
            filter: Filter::User,
            flags: EvFlags::ADD,
            fflags,
            datum: 0,
            udata: 0,
        };
        changes.push(change).map_err(|_| Memory)?;
    }
    Ok(Event::Kevent {
        pid: 1,
        fd: 9,
        changes: Series::from_vec(changes),
        room: u32::from(added.is_none()),
    })
}

// Process 1 adds a user event, lets it happen, and asks for what did.
fn event_at(alloc: Global, place: u32) -> Result<Event, Memory> {
    match place {
        1 => Ok(Event::Proc { pid: 1 }),
        2 => Ok(Event::Kqueue { pid: 1, fd: 9 }),
        3 => call(alloc, Some(0)),
        4 => call(alloc, Some(NOTE_TRIGGER)),
        _ => call(alloc, None),
    }
}

// How many events were returned.
fn returned(reply: &Reply) -> Option<usize> {
    match reply {
        Reply::Events(events) => Some(events.len()),
        _ => None,
    }
}

// A call's place, how much its seat had seen, and how many events it returned.
type Told = Result<(u64, u64, Option<usize>), LiveError>;

fn told(answered: Result<LiveReceipt, LiveError>) -> Told {
    let LiveReceipt {
        at,
        answer,
        seen_len,
    } = answered?;
    Ok((at, seen_len, returned(&answer)))
}

// The call with the event at this place.
fn called<R: Wait>(rt: &R, alloc: Global, live: &Live, seat: &mut LiveSeat, place: u32) -> Told
    requires { seat.old.lock ≡ live.now.lock }
    ensures { seat.new.lock ≡ live.now.lock }
{
    match event_at(alloc, place) {
        Ok(event) => told(live.call(rt, seat, event)),
        Err(Memory) => Err(LiveError::Memory),
    }
}

// Process 1 adds a user event, and lets it happen.
fn assert_happens<R: Abort + Wait>(rt: &R, alloc: Global, live: &Live, seat: &mut LiveSeat)
    requires { seat.old.lock ≡ live.now.lock }
    ensures { seat.new.lock ≡ live.now.lock }
{
    let calls = [
        (1, (1, 0, None)),
        (2, (2, 1, None)),
        (3, (3, 2, Some(0))),
        (4, (4, 3, Some(0))),
    ];
    for (place, expected) in calls {
        assert!(rt; called(rt, alloc, live, seat, place) == Ok(expected));
    }
}

// The other seat, which has learned the four calls, is told of the event.
fn assert_polled<R: Abort + Wait>(rt: &R, alloc: Global, live: &Live, seat: &mut LiveSeat)
    requires { seat.old.lock ≡ live.now.lock }
{
    assert!(rt; called(rt, alloc, live, seat, 5) == Ok((5, 4, Some(1))));
}

// The first seat, which has seen four calls of five, makes another in a single try.
fn assert_tried(rt: &impl Abort, live: &Live, seat: &mut LiveSeat)
    requires { seat.old.lock ≡ live.now.lock }
    ensures { seat.new.lock ≡ live.now.lock }
{
    let alone = live.try_call(seat, Event::Clock { ns: 0 });
    assert!(rt; told(alone) == Ok((6, 4, None)));
}

// Whether these are the rows of the calls at the places 3 to 5.
fn are_told(rows: &[Row]) -> bool {
    let expected = [(3, Some(0)), (4, Some(0)), (5, Some(1))];
    let mut are_told = rows.len() == 3;
    for (row, expected) in rows.iter().zip(&expected) {
        are_told &= (row.at, returned(&row.reply)) == *expected;
    }
    are_told
}

// Whether the book has six calls, of which three have a row.
fn is_book(book: &Book) -> Result<bool, Memory> {
    let are_told = are_told(book.rows()?.as_slice());
    let records = book.trace()?.events.len();
    Ok(are_told && (book.len(), records) == (6, 6))
}

// Whether the live system closes with such a book.
fn closes(live: Live, seat: LiveSeat) -> Result<bool, LiveError>
    requires { seat.lock ≡ live.lock }
{
    let book = live.close(seat)?;
    Ok(is_book(&book)?)
}

// The first seat makes four calls, the other learns them by a part of it and makes the fifth, and the first the last.
fn assert_shared<R: Abort + Wait>(
    rt: &R,
    alloc: Global,
    live: &Live,
    one: &mut LiveSeat,
    two: &mut LiveSeat,
)
    requires one { one.old.lock ≡ live.now.lock }
    requires two { two.old.lock ≡ live.now.lock }
    ensures { one.new.lock ≡ live.now.lock }
{
    assert_happens(rt, alloc, live, one);
    let part = live.split(one);
    live.join(two, part);
    assert_polled(rt, alloc, live, two);
    assert_tried(rt, live, one);
}

#[test]
fn seats_share_one_system(rt: HostRuntime) -> Result<(), Fail> {
    let (live, mut one, mut two) = with_two_seats(rt.alloc())?;
    assert_shared(&rt, rt.alloc(), &live, &mut one, &mut two);
    assert!(rt; closes(live, one)?);
    Ok(())
}

// Two calls are answered, and the third is refused.
fn assert_worn_out<R: Abort + Wait>(rt: &R, alloc: Global, live: &Live, seat: &mut LiveSeat)
    requires { seat.old.lock ≡ live.now.lock }
    ensures { seat.new.lock ≡ live.now.lock }
{
    let calls = [
        (1, Ok((1, 0, None))),
        (2, Ok((2, 1, None))),
        (3, Err(LiveError::WornOut)),
    ];
    for (place, expected) in calls {
        assert!(rt; called(rt, alloc, live, seat, place) == expected);
    }
}

#[test]
fn a_system_for_two_calls_is_worn_out(rt: HostRuntime) -> Result<(), Fail> {
    let (live, mut seat) = with_one_seat(rt.alloc(), 2)?;
    assert_worn_out(&rt, rt.alloc(), &live, &mut seat);
    let book = live.close(seat)?;
    assert_eq!(rt; book.len(), 2);
    Ok(())
}
