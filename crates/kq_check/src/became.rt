//! What one record did to one kevent.

ghost use Rattle.std.specs.Prelude.{◌≡◌};
ghost use Rattle.kq_check.specs.Words.{step_text};

use kq_knote::Knote;
use kq_model::{Event, Filter};

/// The part of a record that did something.
#[derive(Drop, Clone, Copy)]
pub(crate) enum Part {
    /// The changes of a call.
    Changes,
    /// A call's reading of events.
    Reading,
    /// Any other record.
    Record,
}

/// What became of a kevent.
#[derive(Drop, Clone, Copy)]
pub enum Step {
    RegisteredReady,
    Registered,
    RegisteredDisabled,
    Followed,
    EnabledReady,
    Enabled,
    Disabled,
    ChangedReady,
    Changed,
    Deleted,
    NumberClosed,
    Exited,
    Told,
    ToldDisabled,
    ReturnedCleared,
    ReturnedDisabled,
    ReturnedDeleted,
    ReturnedNotice,
    Returned,
    Idle,
}

impl Step {
    /// The words for it.
    pub fn text(self) -> &'static str
        ensures { result.now ≡ step_text self }
    {
        match self {
            Step::RegisteredReady => "registered, the condition held: put at the back",
            Step::Registered => "registered, the condition did not hold",
            Step::RegisteredDisabled => "registered, disabled",
            Step::Followed => "registered for the child, with a notice: put at the back",
            Step::EnabledReady => "enabled, the condition held: put at the back",
            Step::Enabled => "enabled, the condition did not hold",
            Step::Disabled => "disabled",
            Step::ChangedReady => "changed, the condition held: put at the back",
            Step::Changed => "changed",
            Step::Deleted => "deleted by DELETE",
            Step::NumberClosed => "deleted, its number was closed",
            Step::Exited => "deleted, the process exited and there was nothing to tell",
            Step::Told => "told, the condition held: put at the back",
            Step::ToldDisabled => "told, the condition held, but it was disabled",
            Step::ReturnedCleared => "returned, reset by CLEAR",
            Step::ReturnedDisabled => "returned, disabled by DISPATCH",
            Step::ReturnedDeleted => "returned, deleted by ONESHOT",
            Step::ReturnedNotice => "returned, its notice was told",
            Step::Returned => "returned, put at the back",
            Step::Idle => "looked at, its condition held no more: left the queue",
        }
    }
}

/// What became of a kevent by a part of a record, from the knote before and after it; none where nothing did.
pub(crate) fn step_of(
    part: Part,
    before: Option<Knote>,
    after: Option<Knote>,
    is_returned: bool,
) -> Option<Step> {
    match (before, after) {
        (None, None) => None,
        (None, Some(after)) => Some(registered(part, &after)),
        (Some(before), None) => Some(removed(part, &before)),
        (Some(before), Some(after)) => match part {
            Part::Changes => changed(&before, &after),
            Part::Reading => read(&before, &after, is_returned),
            Part::Record => told(&before, &after),
        },
    }
}

fn registered(part: Part, after: &Knote) -> Step {
    match part {
        Part::Record => Step::Followed,
        _ if !after.enabled => Step::RegisteredDisabled,
        _ if after.active => Step::RegisteredReady,
        _ => Step::Registered,
    }
}

fn removed(part: Part, before: &Knote) -> Step {
    match part {
        Part::Changes => Step::Deleted,
        Part::Reading => Step::ReturnedDeleted,
        Part::Record => match before.key.filter {
            Filter::Proc => Step::Exited,
            _ => Step::NumberClosed,
        },
    }
}

fn changed(before: &Knote, after: &Knote) -> Option<Step> {
    if before.enabled != after.enabled {
        if !after.enabled {
            Some(Step::Disabled)
        } else if after.active {
            Some(Step::EnabledReady)
        } else {
            Some(Step::Enabled)
        }
    } else if !before.is_waiting() && after.is_waiting() {
        Some(Step::ChangedReady)
    } else if are_alike(before, after) {
        None
    } else {
        Some(Step::Changed)
    }
}

/// Whether a change left what it sets.
fn are_alike(before: &Knote, after: &Knote) -> bool {
    before.active == after.active
        && before.datum == after.datum
        && before.udata == after.udata
        && before.fflags == after.fflags
        && before.start == after.start
        && before.period == after.period
        && before.bits == after.bits
        && before.triggered == after.triggered
}

fn read(before: &Knote, after: &Knote, is_returned: bool) -> Option<Step> {
    if !is_returned {
        if before.is_waiting() && !after.is_waiting() {
            return Some(Step::Idle);
        }
        return None;
    }
    if before.notice.is_some() {
        Some(Step::ReturnedNotice)
    } else if !after.enabled {
        Some(Step::ReturnedDisabled)
    } else if !after.active {
        Some(Step::ReturnedCleared)
    } else {
        Some(Step::Returned)
    }
}

fn told(before: &Knote, after: &Knote) -> Option<Step> {
    if before.active || !after.active {
        None
    } else if after.enabled {
        Some(Step::Told)
    } else {
        Some(Step::ToldDisabled)
    }
}

/// The name of a record.
pub(crate) fn name_of(event: &Event) -> &'static str {
    match event {
        Event::Proc { .. } => "proc",
        Event::Fork { .. } => "fork",
        Event::Exit { .. } => "exit",
        Event::Kqueue { .. } => "kqueue",
        Event::Dup { .. } => "dup",
        Event::Close { .. } => "close",
        Event::Socket { .. } => "socket",
        Event::Listen { .. } => "listen",
        Event::Arrive { .. } => "arrive",
        Event::Accept { .. } => "accept",
        Event::Connect { .. } => "connect",
        Event::Rx { .. } => "rx",
        Event::Tx { .. } => "tx",
        Event::Shut { .. } => "shut",
        Event::Lowat { .. } => "lowat",
        Event::Pipe { .. } => "pipe",
        Event::Read { .. } => "read",
        Event::Write { .. } => "write",
        Event::Exec { .. } => "exec",
        Event::Sigset { .. } => "sigset",
        Event::Sig { .. } => "sig",
        Event::File { .. } => "file",
        Event::Open { .. } => "open",
        Event::Seek { .. } => "seek",
        Event::Truncate { .. } => "truncate",
        Event::Note { .. } => "note",
        Event::Clock { .. } => "clock",
        Event::Kevent { .. } => "kevent",
    }
}
