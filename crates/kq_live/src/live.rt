//! The live system and its calls.
ghost use Rattle.std.specs.Prelude.{◌≡◌, ◌≢◌, ◌+◌, ◌-◌, ◌^◌, ◌<◌, ◌≤◌, true};
ghost use Rattle.std.specs.Prelude.{false, [], length, vec_len, IfOk, IfErr};
ghost use mathlib.Core.List.{IsPrefix};
ghost use Rattle.kq_lock.specs.Calls.{calls_by, longer};
ghost use Rattle.kq_lock.specs.Seats.{AllParted, AreApart, AreHalves, EachSeat, IsFresh, Refused, own_calls};
ghost use Rattle.kq_model.specs.Limits.{IsVersion};
ghost use Rattle.kq_live.specs.Lives.{IsCalled, IsWhole, OpensEmpty};

use crate::book::Book;
use crate::machine::LiveMachine;
use kq_lock::{Receipt, TurnError, TurnLock, TurnSeat};
use kq_model::{Event, Reply};
use std::alloc::Global;
use std::marker::Model;
use std::sync::Wait;

/// A place at a live system. A thread needs one of its own to call it.
pub type LiveSeat = TurnSeat<LiveMachine>;

/// What a call tells: its place in the history, from 1, the reply, and how many calls the seat had seen before.
pub type LiveReceipt = Receipt<Reply>;

/// Why a call was refused. The history has not got it, and the seat may be used again.
pub type LiveError = TurnError;

/// Calls that a live system takes at most: a trace has no more events.
pub const MOST_CALLS: u64 = (1 << 31) - 1;

/// The simulated system, called by many threads at once.
#[derive(Drop)]
pub struct Live {
    lock: TurnLock<LiveMachine>,
    version: u32,
}

impl Model for Live {
    ghost use Rattle.std.specs.Coded.{codes};
    ghost use Rattle.kq_system.specs.contracts.system.System as system;
    ghost use Rattle.kq_live.specs.Lives.{LiveName, OpensEmpty};

    ghost Value = { LiveName };

    ghost coded = { Prim.hlevel (codes, system.the_row.coded) };

    ghost view = { λ l. record { lock = l.lock; version = l.version } };

    ghost invariant = { λ l. OpensEmpty l.lock l.version };
}

impl Live {
    /// The empty system of this version of the trace's format, which is 1 or 2, with `seats` seats, 1 to 64 of them. It
    /// takes as many calls as a trace has events at most, 2^31 - 1. `Memory` comes only where a growth was refused.
    pub fn new(
        alloc: Global,
        version: u32,
        seats: usize,
    ) -> Result<(Live, Vec<LiveSeat>), LiveError>
        requires version { IsVersion version }
        requires seats { (1 ≤ seats) × (seats ≤ 64) }
        ensures live { IfOk result (λ r. (r.0.version ≡ version) × (r.0.lock.last ≡ 2 ^ 31 - 1)) }
        ensures opens { IfOk result (λ r. OpensEmpty r.0.lock version) }
        ensures count { IfOk result (λ r. vec_len r.1 ≡ seats) }
        ensures fresh { IfOk result (λ r. EachSeat (IsFresh r.0.lock) r.1.items) }
        ensures apart { IfOk result (λ r. AreApart r.1.items) }
        ensures parted { IfOk result (λ r. AllParted r.1.items) }
        ensures err { IfErr result (λ e. e ≡ TurnError.Memory) }
    {
        Live::with_last(alloc, version, seats, MOST_CALLS)
    }

    /// The empty system that [`Live::new`] gives, which takes `last` calls at most.
    pub fn with_last(
        alloc: Global,
        version: u32,
        seats: usize,
        last: u64,
    ) -> Result<(Live, Vec<LiveSeat>), LiveError>
        requires version { IsVersion version }
        requires seats { (1 ≤ seats) × (seats ≤ 64) }
        requires last { last ≤ 2 ^ 31 - 1 }
        ensures live { IfOk result (λ r. (r.0.version ≡ version) × (r.0.lock.last ≡ last)) }
        ensures opens { IfOk result (λ r. OpensEmpty r.0.lock version) }
        ensures count { IfOk result (λ r. vec_len r.1 ≡ seats) }
        ensures fresh { IfOk result (λ r. EachSeat (IsFresh r.0.lock) r.1.items) }
        ensures apart { IfOk result (λ r. AreApart r.1.items) }
        ensures parted { IfOk result (λ r. AllParted r.1.items) }
        ensures err { IfErr result (λ e. e ≡ TurnError.Memory) }
    {
        let Ok(machine) = LiveMachine::new(alloc, version) else {
            return Err(LiveError::Memory);
        };
        match TurnLock::new(alloc, machine, seats, last) {
            Ok((lock, made)) => Ok((Live { lock, version }, made)),
            Err(refused) => Err(refused),
        }
    }

    /// Applies one event, and gives the reply to it. It may wait for the calls that were begun before. An event that
    /// is impossible is a call like any other. `WornOut` comes where all calls were made, and `Memory` where a
    /// growth was refused; `Busy` never comes.
    pub fn call<R: Wait>(
        &self,
        rt: &R,
        seat: &mut LiveSeat,
        event: Event,
    ) -> Result<LiveReceipt, LiveError>
        requires { seat.old.lock ≡ self.now.lock }
        ensures kept { (seat.new.lock ≡ seat.old.lock) × (seat.new.number ≡ seat.old.number) }
        ensures stride { seat.new.stride ≡ seat.old.stride }
        ensures ok { IfOk result (λ r. IsCalled self.now.version seat.old seat.new event r.at r.answer r.seen_len) }
        ensures longer { IfOk result (λ r. r.seen_len < r.at) }
        ensures err { IfErr result (λ e. Refused seat.old seat.new e) }
        ensures worn { seat.old.worn ≡ true → result ≡ Err TurnError.WornOut }
        ensures never_busy { IfErr result (λ e. e ≢ TurnError.Busy) }
    {
        self.lock.call(rt, seat, event)
    }

    /// Applies one event in a single try, which waits for nobody, and gives the reply to it. `WornOut` comes where all
    /// calls were made, before `Busy`, which comes where the turn was not free, and that before `Memory`.
    pub fn try_call(&self, seat: &mut LiveSeat, event: Event) -> Result<LiveReceipt, LiveError>
        requires { seat.old.lock ≡ self.now.lock }
        ensures kept { (seat.new.lock ≡ seat.old.lock) × (seat.new.number ≡ seat.old.number) }
        ensures stride { seat.new.stride ≡ seat.old.stride }
        ensures ok { IfOk result (λ r. IsCalled self.now.version seat.old seat.new event r.at r.answer r.seen_len) }
        ensures longer { IfOk result (λ r. r.seen_len < r.at) }
        ensures err { IfErr result (λ e. Refused seat.old seat.new e) }
        ensures worn { seat.old.worn ≡ true → result ≡ Err TurnError.WornOut }
    {
        self.lock.try_call(seat, event)
    }

    /// A seat of its own that has seen as much. It waits for nobody and takes no memory.
    pub fn split(&self, seat: &mut LiveSeat) -> LiveSeat
        requires { seat.old.lock ≡ self.now.lock }
        ensures kept { seat.new ≡ record seat.old { stride = seat.old.stride + seat.old.stride } }
        ensures new { result ≡ record seat.old {
          number = seat.old.number + seat.old.stride;
          stride = seat.old.stride + seat.old.stride;
          worn = false;
        } }
        // No number that a seat owned, of this system or split off later, is the new seat's as well.
        ensures halves { AreHalves seat.old seat.new result }
        ensures none { own_calls result ≡ [] }
    {
        self.lock.split(seat)
    }

    /// The first seat learns what the other had seen. It waits for nobody and takes no memory.
    pub fn join(&self, seat: &mut LiveSeat, other: LiveSeat)
        requires seat { seat.old.lock ≡ self.now.lock }
        requires other { other.lock ≡ self.now.lock }
        ensures same { seat.new ≡ record seat.old { seen = longer seat.old.seen other.seen } }
        ensures begins { IsPrefix seat.old.seen seat.new.seen }
        ensures learned { IsPrefix other.seen seat.new.seen }
        ensures own { own_calls seat.new ≡ own_calls seat.old }
        ensures theirs { calls_by other.number seat.new.seen ≡ own_calls other }
    {
        self.lock.join(seat, other);
    }

    /// How many calls of the history the seat has seen.
    pub fn seen_len(seat: &LiveSeat) -> u64
        ensures { result ≡ length seat.now.seen }
    {
        TurnLock::seen_len(seat)
    }

    /// Ends the live system: all its calls, in the order in which they were made. It waits for nobody. It answers
    /// `Memory` where a call still has a ticket, which no caller can bring about.
    pub fn close(self, seat: LiveSeat) -> Result<Book, LiveError>
        requires { seat.lock ≡ self.lock }
        ensures ok { IfOk result (λ b. IsWhole self seat b) }
        ensures err { IfErr result (λ e. e ≡ TurnError.Memory) }
    {
        let Live { lock, version } = self;
        match lock.close(seat) {
            Ok((_, entries)) => Ok(Book::new(version, entries)),
            Err(refused) => Err(refused),
        }
    }
}
