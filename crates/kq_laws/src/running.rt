//! The step of the system, with laws over the whole trace.

ghost use Rattle.std.specs.Prelude.{◌≡◌, ◌+◌, ◌-◌, ◌^◌, ◌<◌, List, IfOk, IsOk, OnErr, OnOk};
ghost use Rattle.kq_model.specs.declared.event.Event.{Event};
ghost use Rattle.kq_model.specs.ClosedNumbers.{ClosesAll};
ghost use Rattle.kq_model.specs.Hearing.{listed};
ghost use Rattle.kq_model.specs.Objects as objects;
ghost use Rattle.kq_model.specs.Recast.{IsTalliedStep, tallied_system};
ghost use Rattle.kq_model.specs.System as model;
ghost use Rattle.kq_model.specs.System.{empty_system, step, system_after};
ghost use Rattle.kq_model.specs.VersionOne as one;
ghost use Rattle.kq_model.specs.WatchedNumbers.{AllWatchTheirNumbers};
ghost use Rattle.kq_laws.specs.Children.{FollowsChildren};
ghost use Rattle.kq_laws.specs.Notices.{TellsOfForks};
ghost use Rattle.kq_laws.specs.Runs.{AnnouncesAll, CountsExpirations, ReturnsAllDue};
ghost use Rattle.kq_system.specs.SystemState.{IsImpossible, IsStep, IsUnchanged, system_of};

use kq_model::{Event, Memory, Reply};
use kq_system::System;

/// Applies one event, as [`System::apply`], with what a user may rely on over the whole trace.
pub fn apply(system: &mut System, event: &Event) -> Result<Reply, Memory>
    requires { system.old.applied < 2 ^ 31 - 1 }

    // Each condition that the record makes hold is hinted to the knotes that wait for it.
    ensures hints { OnOk result
        (AnnouncesAll system.old.applied event.now (system_of system.old) (system_of system.new)) }

    // What is level-triggered and enabled, and whose condition holds, is returned by a kevent call with room for it.
    // So is the notice of a child.
    ensures wakes { IfOk result
        (ReturnsAllDue system.old.applied event.now (system_of system.old) (system_of system.new)) }

    // The data of a timer's event is the number of its expirations since it was last returned or started.
    ensures timers { IfOk result
        (CountsExpirations system.old.applied event.now (system_of system.old) (system_of system.new)) }

    // A fork brings a knote for the child to each kqueue that follows the parent. It has the parameters and actions of
    // the parent's knote and the parent's pid to tell, is enabled, the last in order and at the back of the queue.
    ensures children { OnOk result
        (FollowsChildren system.old.applied event.now (system_of system.old) (system_of system.new)) }

    // An event tells of a child by NOTE_CHILD only after the fork of it, and its data is the parent's pid.
    ensures notices { IfOk result (TellsOfForks system.old.applied event.now (system_of system.old)) }

    // What follows is what `System::apply` promises.
    ensures reply { IfOk result
        (IsStep (system.old.applied + 1) event.now (system_of system.old) (system_of system.new)) }

    // The same in the words of the definitions, which keep all that was recorded and heard.
    ensures model { IfOk result (λ reply. (m : model.System listed objects.listed)
        → system_of system.old ≡ tallied_system m
        → IsTalliedStep (system_of system.new) reply (step (system.old.applied + 1) event.now m)) }

    // In version 1 of the trace's format this is the reply that it gave while it had no other.
    ensures version_one { IfOk result (λ reply. (events : List Event)
        → system_of system.old ≡ tallied_system (system_after 1 (empty_system {k = objects.listed} 1) events)
        → reply ≡ one.reply_after events (system.old.applied + 1) event.now) }

    // No kqueue keeps a knote of a number that was closed, also where a duplicate stays open.
    ensures closed { OnOk result
        (ClosesAll (system.old.applied + 1) event.now (system_of system.old) (system_of system.new)) }

    // Each READ, WRITE or VNODE knote of each kqueue watches what its number names now.
    ensures watched { AllWatchTheirNumbers (system_of system.new) }
    ensures applied { IfOk result (λ _. system.new.applied ≡ system.old.applied + 1) }
    ensures memory { OnErr result (IsUnchanged system.old system.new) }
    ensures impossible { IsImpossible (system.old.applied + 1) event.now (system_of system.old) → IsOk result }
{
    system.apply(event)
}
