//! Pieces of what is told.

ghost use Rattle.std.specs.Prelude.{OnOk};
ghost use Rattle.kq_text.specs.Adds.{Adds};
ghost use Rattle.kqcheck.specs.Texts.{outcome_line, place_text};

use bitflags::Flags;
use kq_answers::Given;
use kq_check::{Followed, Outcome};
use kq_judge::{Absence, Member};
use kq_knote::Knote;
use kq_model::{EvFlags, Kevent, Key, Memory, Reply, Why};
use kq_text::{put, put_flags, put_i64, put_number};

/// Adds the line of an outcome.
#[tactic(auto, unfolding(crate::specs::Texts::outcome_line))]
pub fn put_outcome(out: &mut Vec<u8>, outcome: Outcome) -> Result<(), Memory>
    ensures { OnOk result (Adds out.old.items (outcome_line outcome) out.new.items) }
{
    match outcome {
        Outcome::Equal => put(out, "equal\n"),
        Outcome::Allowed { first } => put_allowed(out, first),
        Outcome::Refused { at } => put_refused(out, at),
        Outcome::Unknown { at } => put_unknown(out, at),
        Outcome::Impossible { at, why } => put_impossible(out, at, why),
    }
}

fn put_allowed(out: &mut Vec<u8>, first: u64) -> Result<(), Memory>
    ensures { OnOk result (Adds out.old.items (outcome_line (Outcome.Allowed first)) out.new.items) }
{
    put(out, "allowed: the first call in another order is at ")?;
    put_place(out, first)?;
    put(out, "\n")
}

fn put_refused(out: &mut Vec<u8>, at: u64) -> Result<(), Memory>
    ensures { OnOk result (Adds out.old.items (outcome_line (Outcome.Refused at)) out.new.items) }
{
    put(out, "not allowed: the call at ")?;
    put_place(out, at)?;
    put(out, "\n")
}

fn put_unknown(out: &mut Vec<u8>, at: u64) -> Result<(), Memory>
    ensures { OnOk result (Adds out.old.items (outcome_line (Outcome.Unknown at)) out.new.items) }
{
    put(out, "unknown: the call at ")?;
    put_place(out, at)?;
    put(
        out,
        ": an earlier one has no answer, and could have returned others\n",
    )
}

fn put_impossible(out: &mut Vec<u8>, at: u64, why: Why) -> Result<(), Memory>
    ensures { OnOk result (Adds out.old.items (outcome_line (Outcome.Impossible at why)) out.new.items) }
{
    put(out, "impossible: the record at ")?;
    put_place(out, at)?;
    put(out, ": ")?;
    put(out, why.name())?;
    put(out, "\n")
}

/// Adds the place of a record, and its line in the trace.
#[tactic(auto, unfolding(crate::specs::Texts::place_text))]
pub fn put_place(out: &mut Vec<u8>, at: u64) -> Result<(), Memory>
    ensures { OnOk result (Adds out.old.items (place_text at) out.new.items) }
{
    put_number(out, at)?;
    put(out, " (line ")?;
    put_number(out, u128::from(at) + 1)?;
    put(out, ")")
}

/// Adds the name of a kevent.
pub fn put_key(out: &mut Vec<u8>, key: Key) -> Result<(), Memory> {
    put(out, key.filter.name())?;
    put(out, " ")?;
    put_number(out, key.ident)
}

/// Adds the names of events, of an entry with its error.
fn put_events(out: &mut Vec<u8>, events: &[Kevent]) -> Result<(), Memory> {
    if events.is_empty() {
        return put(out, "nothing");
    }
    let mut is_later = false;
    for event in events {
        if is_later {
            put(out, ", ")?;
        }
        is_later = true;
        put_event(out, event)?;
    }
    Ok(())
}

fn put_event(out: &mut Vec<u8>, event: &Kevent) -> Result<(), Memory> {
    let key = Key {
        ident: event.ident,
        filter: event.filter,
    };
    put_key(out, key)?;
    if event.flags.contains(EvFlags::ERROR) {
        put(out, " (error ")?;
        put_i64(out, event.datum)?;
        put(out, ")")?;
    }
    Ok(())
}

/// Adds what was recorded.
pub fn put_given(out: &mut Vec<u8>, given: &Given) -> Result<(), Memory> {
    match given {
        Given::Events(events) => put_events(out, events.as_slice()),
        Given::Failed(error) => {
            put(out, "failed ")?;
            put_number(out, *error)
        }
        Given::Impossible(why) => {
            put(out, "impossible: ")?;
            put(out, why.name())
        }
    }
}

/// Adds what the system answers.
pub fn put_reply(out: &mut Vec<u8>, reply: &Reply) -> Result<(), Memory> {
    match reply {
        Reply::Done => put(out, "no call"),
        Reply::Events(events) => put_events(out, events.as_slice()),
        Reply::Failed(error) => {
            put(out, "failed ")?;
            put_number(out, error.code())
        }
        Reply::Impossible(why) => {
            put(out, "impossible: ")?;
            put(out, why.name())
        }
    }
}

/// Adds why a kevent is not to be returned.
pub fn put_absence(
    out: &mut Vec<u8>,
    absence: Absence,
    knote: Option<Knote>,
) -> Result<(), Memory> {
    let is_clear = match knote {
        Some(knote) => knote.clear,
        None => false,
    };
    put(
        out,
        match absence {
            Absence::NotRegistered => "not registered",
            Absence::Disabled => "disabled",
            Absence::Idle => "in the queue, but its condition holds no more",
            Absence::NotActive { holds: false } => "not active; its condition does not hold",
            Absence::NotActive { .. } if is_clear =>
                "not active; its condition holds, but nothing was told since CLEAR reset it",
            Absence::NotActive { .. } =>
                "not active; its condition holds, but nothing was told since it was looked at",
        },
    )
}

/// Adds the member in which two events differ.
pub fn put_difference(
    out: &mut Vec<u8>,
    member: Member,
    own: &Kevent,
    event: &Kevent,
) -> Result<(), Memory> {
    put(
        out,
        match member {
            Member::Flags => "flags are ",
            Member::Fflags => "fflags is ",
            Member::Datum => "data is ",
            Member::Udata => "udata is ",
        },
    )?;
    put_member(out, member, event)?;
    put(out, ", yours ")?;
    put_member(out, member, own)
}

fn put_member(out: &mut Vec<u8>, member: Member, event: &Kevent) -> Result<(), Memory> {
    match member {
        Member::Flags => put_flags(out, event.flags),
        Member::Fflags => put_number(out, event.fflags),
        Member::Datum => put_i64(out, event.datum),
        Member::Udata => put_number(out, event.udata),
    }
}

/// Adds what a kevent went through, the last moments of it.
pub fn put_moments(out: &mut Vec<u8>, followed: &Followed) -> Result<(), Memory> {
    if followed.earlier > 0 {
        put(out, "          (")?;
        put_number(out, followed.earlier)?;
        put(out, " earlier)\n")?;
    }
    for moment in &followed.moments {
        put(out, "          at ")?;
        put_number(out, moment.at)?;
        put(out, " (")?;
        put(out, moment.record)?;
        put(out, "): ")?;
        put(out, moment.step.text())?;
        put(out, "\n")?;
    }
    Ok(())
}
