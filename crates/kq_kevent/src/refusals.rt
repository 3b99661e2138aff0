//! Which changes are refused, by their form, their number or their filter, and with which error.

ghost use Rattle.std.specs.Prelude.{◌≡◌, ℕ};
ghost use Rattle.kq_model.specs.Caller.{Caller};
ghost use Rattle.kq_model.specs.Knote.{watches_number};
ghost use Rattle.kq_model.specs.Look.{is_simulated};
ghost use Rattle.kq_model.specs.Refusals.{is_malformed, is_unopened, invalid_if, is_readable, is_writable, is_file};
ghost use Rattle.kq_model.specs.Refusals.{is_live_process, process_refusal, own_refusal};
ghost use Rattle.kq_model.specs.Ticks.{timing_of};
ghost use Rattle.std.specs.Option.{is_none};

use crate::register::asks;
use kq_model::notes::NOTE_TRACK;
use kq_model::{Change, Errno, EvFlags, Filter, Named, Version, View, Views, named_in, process_in};
use kq_timer::Timing;

/// Whether changes of a filter do something; those of all others are refused.
#[tactic(auto, unfolding(kq_model::specs::Look::is_simulated))]
fn is_simulated(filter: Filter) -> bool
    ensures { result ≡ is_simulated filter }
{
    match filter {
        Filter::Read | Filter::Write | Filter::Vnode => true,
        Filter::Proc | Filter::Signal | Filter::Timer | Filter::User => true,
        _ => false,
    }
}

/// Whether a change is refused whatever is there: its filter is not simulated, or it asks for
/// ENABLE together with DISABLE.
pub fn is_malformed(change: &Change) -> bool
    ensures { result ≡ is_malformed change.now }
{
    if !is_simulated(change.filter) {
        return true;
    }
    asks(change.flags, EvFlags::ENABLE) && asks(change.flags, EvFlags::DISABLE)
}

/// Whether a filter watches what a number of the process names.
#[tactic(auto, unfolding(kq_model::specs::Knote::watches_number))]
fn watches_number(filter: Filter) -> bool
    ensures { result ≡ watches_number filter }
{
    matches!(filter, Filter::Read | Filter::Write | Filter::Vnode)
}

/// Whether a change watches a number that is not open in the process `owner`.
pub fn is_unopened<V: Views>(owner: u32, change: &Change, views: &V) -> bool
    ensures { (version : ℕ) → result
        ≡ is_unopened (record { views = V.sees views.now; owner = owner; version = version }) change.now }
{
    watches_number(change.filter) && named_in(owner, change.ident, views).is_none()
}

#[tactic(auto, unfolding(kq_model::specs::Refusals::invalid_if))]
fn invalid_if(bad: bool) -> Option<Errno>
    ensures { result ≡ invalid_if bad }
{
    if bad { Some(Errno::EINVAL) } else { None }
}

#[tactic(auto, unfolding(kq_model::specs::Refusals::is_readable))]
fn is_readable(named: Option<Named>) -> bool
    ensures { result ≡ is_readable named }
{
    match named {
        Some(Named::Socket(_)) => true,
        Some(Named::PipeRead(_)) => true,
        Some(Named::Open { .. }) => true,
        _ => false,
    }
}

#[tactic(auto, unfolding(kq_model::specs::Refusals::is_writable))]
fn is_writable(named: Option<Named>) -> bool
    ensures { result ≡ is_writable named }
{
    match named {
        Some(Named::Socket(_)) => true,
        Some(Named::PipeWrite(_)) => true,
        _ => false,
    }
}

#[tactic(auto, unfolding(kq_model::specs::Refusals::is_file))]
fn is_file(named: Option<Named>) -> bool
    ensures { result ≡ is_file named }
{
    match named {
        Some(Named::Open { .. }) => true,
        _ => false,
    }
}

#[tactic(auto, unfolding(kq_model::specs::Refusals::is_live_process))]
fn is_live_process(view: Option<View>) -> bool
    ensures { result ≡ is_live_process view }
{
    match view {
        Some(View::Process { exited: None }) => true,
        _ => false,
    }
}

/// In version 1 PROC refuses to follow children, and always a process that is not there.
#[tactic(auto, unfolding(kq_model::specs::Refusals::process_refusal))]
fn process_refusal<V: Views>(
    version: Version,
    is_new: bool,
    change: &Change,
    views: &V,
) -> Option<Errno>
    ensures { (by : Caller) → by.views ≡ V.sees views.now → by.version ≡ version
        → result ≡ process_refusal by is_new change.now }
{
    if version.number() == 1 && change.fflags & NOTE_TRACK == NOTE_TRACK {
        return Some(Errno::EINVAL);
    }
    if is_new && !is_live_process(process_in(change.ident, views)) {
        return Some(Errno::ESRCH);
    }
    None
}

/// Whether a change of a timer names no period and no moment, by the rules of this version: it names two units,
/// unknown bits, a negative number or one that is too large.
fn names_no_timing(version: Version, change: &Change) -> bool
    ensures { result ≡ is_none (timing_of version change.now.datum change.now.fflags) }
{
    match Timing::new(version, change.datum, change.fflags) {
        Ok(_) => false,
        Err(_) => true,
    }
}

/// With which error a filter refuses an ADD of the process `owner`, by the rules of this version of the trace format.
#[tactic(auto, unfolding(kq_model::specs::Refusals::own_refusal))]
pub fn own_refusal<V: Views>(
    owner: u32,
    version: Version,
    is_new: bool,
    change: &Change,
    views: &V,
) -> Option<Errno>
    ensures { result ≡ own_refusal change.now.filter
        (record { views = V.sees views.now; owner = owner; version = version }) is_new change.now }
{
    match change.filter {
        Filter::Read => invalid_if(!is_readable(named_in(owner, change.ident, views))),
        Filter::Write => invalid_if(!is_writable(named_in(owner, change.ident, views))),
        Filter::Vnode => invalid_if(!is_file(named_in(owner, change.ident, views))),
        Filter::Proc => process_refusal(version, is_new, change, views),
        Filter::Signal => invalid_if(change.ident < 1 || 128 < change.ident),
        Filter::Timer => invalid_if(names_no_timing(version, change)),
        _ => None,
    }
}
