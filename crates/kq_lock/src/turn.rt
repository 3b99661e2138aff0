//! One turn, step by step. The value is out of the slot only while the seat has the turn.
ghost use Rattle.std.specs.Prelude.{◌≡◌, ◌≢◌, ◌+◌, ◌^◌, ◌<◌, ◌≤◌, true, []};
ghost use Rattle.std.specs.Prelude.{length, IfOk, IfErr, OnErr};
ghost use Rattle.kq_lock.specs.Turns.{IsLockTable, IsSameSeat, IsSameView, HasTurn, KeepsOthers};
ghost use Rattle.kq_lock.specs.Turns.{IsLogged, MayPassOn};
ghost use Rattle.kq_lock.specs.declared.view.Stage.TheVariants.{Idle, Waits};

use crate::entry::Receipt;
use crate::error::TurnError;
use crate::kept::take_step;
use crate::machine::Machine;
use crate::plays::{Draw, Enter, LookAtTicket, PassOn, Raise};
use crate::rule::{LENGTH, SERVING, SharedTable, TICKET, TableSeat};
use crate::waiting::{Patience, Waiting};
use crossbeam_utils::Backoff;
use kq_model::Memory;
use std::sync::Wait;

// Draws the next ticket, unless all are drawn.
pub fn draw<M: Machine, R: Wait>(
    rt: &R,
    table: &SharedTable<M>,
    token: &mut TableSeat<M>,
    last: u64,
) -> Result<u64, TurnError>
    requires table { (token.old.table_id ≡ table.now.table_id) × IsLockTable table.now.table_id }
    requires idle { (token.old.me.0.stage ≡ Idle) × (token.old.me.0.last ≡ last) × (last ≤ 2 ^ 62) }
    ensures seat { IsSameSeat token.old token.new }
    ensures ok { IfOk result (λ t.
        token.new.me ≡ (record token.old.me.0 { stage = Waits t }, token.old.me.1)) }
    ensures err { IfErr result (λ e. e ≡ TurnError.WornOut) }
    ensures worn_out { OnErr result (
        token.new.me ≡ (record token.old.me.0 { worn = true }, token.old.me.1)) }
    ensures worn { token.old.me.0.worn ≡ true → result ≡ Err TurnError.WornOut }
{
    let backoff = Backoff::new();
    for _ in rt.forever() {
        let ticket = table.load::<LookAtTicket>(token, TICKET);
        if ticket == last {
            return Err(TurnError::WornOut);
        }
        let found = table.compare_exchange::<Draw>(token, TICKET, ticket, ticket + 1);
        if found == ticket {
            return Ok(ticket);
        }
        backoff.spin();
    }
    unreachable!()
}

// Waits for the turn of the ticket.
pub fn await_turn<M: Machine, R: Wait>(
    rt: &R,
    table: &SharedTable<M>,
    waiting: &Waiting,
    token: &mut TableSeat<M>,
    ticket: u64,
)
    requires table { (token.old.table_id ≡ table.now.table_id) × IsLockTable table.now.table_id }
    requires waits { (token.old.me.0.stage ≡ Waits ticket) × (token.old.me.1 ≡ []) }
    ensures seat { IsSameSeat token.old token.new × IsSameView token.old.me.0 token.new.me.0 }
    ensures turn { HasTurn M.leads ticket token.new.me }
{
    let mut patience = Patience::new(waiting, ticket);
    for _ in rt.forever() {
        let key = patience.announce();
        let serving = table.load::<Enter<M>>(token, SERVING);
        if serving == ticket {
            return;
        }
        patience.rest(rt, serving, key);
    }
    unreachable!()
}

// Passes the turn on, and wakes who has the next tickets.
fn pass_on<M: Machine>(
    table: &SharedTable<M>,
    waiting: &Waiting,
    token: &mut TableSeat<M>,
    ticket: u64,
)
    requires { (token.old.table_id ≡ table.now.table_id) × IsLockTable table.now.table_id
        × MayPassOn ticket token.old.me × (ticket < 2 ^ 62) }
    ensures seat { IsSameSeat token.old token.new }
    ensures me { token.new.me ≡ (record token.old.me.0 { stage = Idle }, []) }
{
    table.store::<PassOn>(token, SERVING, ticket + 1);
    waiting.wake(token, ticket + 1);
}

// Takes the step, passes the turn on and wakes who has the next tickets. After `Memory` the history has
// not got the call.
pub fn take_turn<M: Machine>(
    table: &SharedTable<M>,
    waiting: &Waiting,
    token: &mut TableSeat<M>,
    ticket: u64,
    step: M::Step,
) -> Result<(u64, M::Answer), Memory>
    requires table { (token.old.table_id ≡ table.now.table_id) × IsLockTable table.now.table_id }
    requires turn { HasTurn M.leads ticket token.old.me × (token.old.me.0.last ≤ 2 ^ 62) }
    ensures seat { IsSameSeat token.old token.new × (token.new.me.1 ≡ []) }
    ensures view { token.new.me.0 ≡ record token.old.me.0 { seen = token.new.me.0.seen; stage = Idle } }
    ensures ok { IfOk result (λ r. IsLogged M.leads token.old.me.0 token.new.me.0 step r.1) }
    ensures at { IfOk result (λ r. r.0 ≡ length token.new.me.0.seen) }
    ensures err { OnErr result (token.new.me.0.seen ≡ token.old.me.0.seen) }
    ensures others { KeepsOthers token.old.me.0 token.new.me.0 }
{
    let mut kept = table.exchange(token, 0, None).unwrap();
    let stepped = take_step(&mut kept, step);
    let len = kept.history.len() as u64;
    table.exchange(token, 0, Some(kept));
    match stepped {
        Ok(answer) => {
            table.store::<Raise>(token, LENGTH, len);
            pass_on(table, waiting, token, ticket);
            Ok((len, answer))
        }
        Err(memory) => {
            pass_on(table, waiting, token, ticket);
            Err(memory)
        }
    }
}

// Takes the turn, and counts the call among those that the seat has seen.
pub fn make_call<M: Machine>(
    table: &SharedTable<M>,
    waiting: &Waiting,
    token: &mut TableSeat<M>,
    seen_len: &mut u64,
    ticket: u64,
    step: M::Step,
) -> Result<Receipt<M::Answer>, TurnError>
    requires table { (token.old.table_id ≡ table.now.table_id) × IsLockTable table.now.table_id }
    requires turn { HasTurn M.leads ticket token.old.me × (token.old.me.0.last ≤ 2 ^ 62) }
    ensures seat { IsSameSeat token.old token.new × (token.new.me.1 ≡ []) }
    ensures view { token.new.me.0 ≡ record token.old.me.0 { seen = token.new.me.0.seen; stage = Idle } }
    ensures ok { IfOk result (λ r. IsLogged M.leads token.old.me.0 token.new.me.0 step r.answer) }
    ensures at { IfOk result (λ r. (r.at ≡ length token.new.me.0.seen) × (seen_len.new ≡ r.at)) }
    ensures seen_len { IfOk result (λ r. r.seen_len ≡ seen_len.old) }
    ensures err { IfErr result (λ e. e ≡ TurnError.Memory) }
    ensures unchanged { OnErr result (token.new.me.0.seen ≡ token.old.me.0.seen) }
    ensures uncounted { OnErr result (seen_len.new ≡ seen_len.old) }
    ensures others { KeepsOthers token.old.me.0 token.new.me.0 }
{
    let (at, answer) = take_turn(table, waiting, token, ticket, step)?;
    let receipt = Receipt {
        at,
        answer,
        seen_len: *seen_len,
    };
    *seen_len = at;
    Ok(receipt)
}
