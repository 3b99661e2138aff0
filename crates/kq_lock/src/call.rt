//! The calls that callers make.
ghost use Rattle.std.specs.Prelude.{◌≡◌, ◌≢◌, ◌<◌, true, IfOk, IfErr};
ghost use Rattle.kq_lock.specs.Seats.{Called, Refused};

use crate::entry::Receipt;
use crate::error::TurnError;
use crate::lock::TurnLock;
use crate::machine::Machine;
use crate::plays::{LookAtTicket, LookAtTurn, Seize};
use crate::rule::{SERVING, TICKET};
use crate::seat::TurnSeat;
use crate::turn::{await_turn, draw, make_call};
use std::sync::Wait;

impl<M: Machine> TurnLock<M> {
    /// Takes one step of the machine. It may wait for the calls with earlier tickets, and never
    /// answers `Busy`. `WornOut` comes where all tickets were drawn, and `Memory` where the history
    /// or the machine was refused a growth.
    pub fn call<R: Wait>(
        &self,
        rt: &R,
        seat: &mut TurnSeat<M>,
        step: M::Step,
    ) -> Result<Receipt<M::Answer>, TurnError>
        requires { seat.old.lock ≡ self.now }
        ensures kept { (seat.new.lock ≡ seat.old.lock) × (seat.new.number ≡ seat.old.number) }
        ensures stride { seat.new.stride ≡ seat.old.stride }
        ensures ok { IfOk result (λ r.
            Called M.leads seat.old seat.new step r.at r.answer r.seen_len) }
        ensures longer { IfOk result (λ r. r.seen_len < r.at) }
        ensures err { IfErr result (λ e. Refused seat.old seat.new e) }
        ensures worn { seat.old.worn ≡ true → result ≡ Err TurnError.WornOut }
        ensures never_busy { IfErr result (λ e. e ≢ TurnError.Busy) }
    {
        let table = &self.table.shared;
        let ticket = draw(rt, table, &mut seat.token, self.last)?;
        await_turn(rt, table, &self.waiting, &mut seat.token, ticket);
        make_call(
            table,
            &self.waiting,
            &mut seat.token,
            &mut seat.seen_len,
            ticket,
            step,
        )
    }

    /// Takes one step of the machine in a single try, which waits for nobody. Where more than one
    /// refusal would fit, `WornOut` goes before `Busy`, and `Busy` before `Memory`.
    pub fn try_call(
        &self,
        seat: &mut TurnSeat<M>,
        step: M::Step,
    ) -> Result<Receipt<M::Answer>, TurnError>
        requires { seat.old.lock ≡ self.now }
        ensures kept { (seat.new.lock ≡ seat.old.lock) × (seat.new.number ≡ seat.old.number) }
        ensures stride { seat.new.stride ≡ seat.old.stride }
        ensures ok { IfOk result (λ r.
            Called M.leads seat.old seat.new step r.at r.answer r.seen_len) }
        ensures longer { IfOk result (λ r. r.seen_len < r.at) }
        ensures err { IfErr result (λ e. Refused seat.old seat.new e) }
        ensures worn { seat.old.worn ≡ true → result ≡ Err TurnError.WornOut }
    {
        let table = &self.table.shared;
        let serving = table.load::<LookAtTurn>(&mut seat.token, SERVING);
        let ticket = table.load::<LookAtTicket>(&mut seat.token, TICKET);
        if ticket == self.last {
            return Err(TurnError::WornOut);
        }
        if ticket != serving {
            return Err(TurnError::Busy);
        }
        let found = table.compare_exchange::<Seize<M>>(&mut seat.token, TICKET, ticket, ticket + 1);
        if found != ticket {
            return Err(TurnError::Busy);
        }
        make_call(
            table,
            &self.waiting,
            &mut seat.token,
            &mut seat.seen_len,
            ticket,
            step,
        )
    }
}
