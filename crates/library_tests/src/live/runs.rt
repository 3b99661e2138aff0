//! A trace that many threads run.
ghost use Rattle.std.specs.Prelude.{◌≤◌};

use crate::gates::{Meeting, Without};
use kq_live::live_run;
use kq_model::{Event, Memory, Series, Trace};
use kq_serve::ServeError;
use kq_threads::{Always, Open};
use std::alloc::Global;
use std::test::Fail;

/// How many processes start: a hundred for each of 64 threads.
const STARTS: u32 = 6400;

fn starts(alloc: Global) -> Result<Trace, Memory> {
    let mut events = Vec::new(alloc);
    for before in 0..STARTS {
        let event = Event::Proc { pid: before + 1 };
        events.push(event).map_err(|_| Memory)?;
    }
    Ok(Trace {
        version: 1,
        events: Series::from_vec(events),
    })
}

#[test]
fn a_start_is_refused(rt: HostRuntime) -> Result<(), Fail> {
    let trace = starts(rt.alloc())?;
    let refused = live_run(&rt, rt.alloc(), &Open, &Without(1), &trace, 2);
    assert!(rt; matches!(refused, Err(ServeError::Spawn)));
    Ok(())
}

// More threads than processors: all are inside at once, most of them sleep, and each is woken for its turn.
#[test]
fn sixty_four_threads_get_their_turns(rt: HostRuntime) -> Result<(), Fail> {
    let trace = starts(rt.alloc())?;
    let gate = Meeting::new(64, 64);
    let book = live_run(&rt, rt.alloc(), &gate, &Always, &trace, 64)?;
    assert_eq!(rt; (book.len(), gate.was_held()), (6400, true));
    Ok(())
}
