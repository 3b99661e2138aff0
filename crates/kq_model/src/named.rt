//! From the ident of a change to what it names in a process, and to what its filter watches.

ghost use Rattle.std.specs.Prelude.{◌≡◌};
ghost use Rattle.kq_model.specs.Refusals.{process_in};
ghost use Rattle.kq_model.specs.Targets.{named_in, object_of, file_of, target_of};

use crate::{Change, Filter, Named, Target, View, Views};

/// What an ident names in the process `owner`. A descriptor has 32 bits.
#[tactic(auto, unfolding(crate::specs::Targets::named_in, crate::specs::Targets::number_in))]
pub fn named_in<V: Views>(owner: u32, ident: u64, views: &V) -> Option<Named>
    ensures { result ≡ named_in (V.sees views.now) owner ident }
{
    if ident < 0x1_0000_0000 {
        views.descriptor(owner, ident as u32)
    } else {
        None
    }
}

/// What there is to see of the process whose pid an ident is. A pid has 32 bits.
#[tactic(auto, unfolding(crate::specs::Refusals::process_in, crate::specs::Targets::number_in))]
pub fn process_in<V: Views>(ident: u64, views: &V) -> Option<View>
    ensures { result ≡ process_in (V.sees views.now) ident }
{
    if ident < 0x1_0000_0000 {
        views.view(Target::Process(ident as u32))
    } else {
        None
    }
}

/// What READ and WRITE watch of an open number.
#[tactic(auto, unfolding(crate::specs::Targets::object_of))]
fn object_of(named: Option<Named>) -> Option<Target>
    ensures { result ≡ object_of named }
{
    match named {
        Some(Named::Socket(place)) => Some(Target::Socket(place)),
        Some(Named::PipeRead(place)) => Some(Target::Pipe(place)),
        Some(Named::PipeWrite(place)) => Some(Target::Pipe(place)),
        Some(Named::Open { description, .. }) => Some(Target::Open(description)),
        Some(Named::Kqueue(_)) => None,
        None => None,
    }
}

/// What VNODE watches of an open number.
#[tactic(auto, unfolding(crate::specs::Targets::file_of))]
fn file_of(named: Option<Named>) -> Option<Target>
    ensures { result ≡ file_of named }
{
    match named {
        Some(Named::Open { file, .. }) => Some(Target::File(file)),
        _ => None,
    }
}

/// What a change made by the process `owner` watches.
#[tactic(auto, unfolding(crate::specs::Targets::target_of, crate::specs::Targets::number_in))]
pub fn target_of<V: Views>(owner: u32, change: &Change, views: &V) -> Option<Target>
    ensures { result ≡ target_of (V.sees views.now) owner change.now.filter change.now.ident }
{
    let ident = change.ident;
    match change.filter {
        Filter::Read => object_of(named_in(owner, ident, views)),
        Filter::Write => object_of(named_in(owner, ident, views)),
        Filter::Vnode => file_of(named_in(owner, ident, views)),
        Filter::Proc if ident < 0x1_0000_0000 => Some(Target::Process(ident as u32)),
        Filter::Signal if ident < 0x1_0000_0000 => Some(Target::Signal {
            pid: owner,
            signal: ident as u32,
        }),
        Filter::Timer => Some(Target::Own),
        Filter::User => Some(Target::Own),
        _ => None,
    }
}
