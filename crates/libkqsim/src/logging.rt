//! The log of a system, for C.
ghost use Rattle.std.specs.Prelude.{◌≡◌, List};
ghost use Rattle.kq_model.specs.declared.event.Event.{Event};
ghost use Rattle.libkqsim.specs.Logs.{IsRead, IsSwitchedTo, stream_of, with_rest};
ghost use Rattle.libkqsim.specs.Whole.{IsWhole};
ghost use Rattle.libkqsim.specs.declared.sim.Logging.TheVariants as logging;
ghost use Rattle.libkqsim.specs.declared.sim.Stream.TheVariants as stream;

use crate::handle::Kqsim;
use crate::sim::{Logging, Stream};
use kq_freebsd::refusal_number;

/// Switches the log, and gives the number of the answer.
fn switch(sim: &mut Kqsim, logging: Logging) -> i32
    ensures { IsSwitchedTo logging sim.old.state sim.new.state result }
{
    match sim.switch(&logging) {
        Ok(()) => 0,
        Err(refusal) => refusal_number(refusal),
    }
}

/// Begins the log. No record was applied yet.
#[unsafe(no_mangle)]
pub extern "C" fn kqsim_log(sim: &mut Kqsim) -> i32
    ensures switched { IsSwitchedTo logging.Begin sim.old.state sim.new.state result }
    // What a run logs is the canonical text of its trace, and its report.
    ensures whole { (events : List Event) → IsWhole sim.old.state.log.version events }
{
    switch(sim, Logging::Begin)
}

/// Ends the log by the last line of the report.
#[unsafe(no_mangle)]
pub extern "C" fn kqsim_log_end(sim: &mut Kqsim) -> i32
    ensures { IsSwitchedTo logging.End sim.old.state sim.new.state result }
{
    switch(sim, Logging::End)
}

/// Takes bytes from the front of a text of the log, as many as there are and have room.
fn read(sim: &mut Kqsim, of: Stream, into: &mut [u8]) -> usize
    ensures read { IsRead (stream_of of sim.old.state.log) (stream_of of sim.new.state.log) into.old into.new result }
    ensures rest { sim.new.state.log ≡ with_rest of (stream_of of sim.new.state.log) sim.old.state.log }
    ensures same { sim.new.state.system ≡ sim.old.state.system }
{
    let mut count = 0;
    'bytes: while count < into.len() {
        let Some(byte) = sim.next(&of) else {
            return count;
        };
        into[count] = byte;
        count += 1;
    }
    count
}

/// Takes bytes from the front of the trace that is logged and not read yet. Their number is returned.
#[unsafe(no_mangle)]
pub extern "C" fn kqsim_read_trace(sim: &mut Kqsim, into: &mut [u8]) -> usize
    ensures read { IsRead sim.old.state.log.trace sim.new.state.log.trace into.old into.new result }
    ensures rest { sim.new.state.log ≡ with_rest stream.Trace sim.new.state.log.trace sim.old.state.log }
    ensures same { sim.new.state.system ≡ sim.old.state.system }
{
    read(sim, Stream::Trace, into)
}

/// The same of the report.
#[unsafe(no_mangle)]
pub extern "C" fn kqsim_read_report(sim: &mut Kqsim, into: &mut [u8]) -> usize
    ensures read { IsRead sim.old.state.log.report sim.new.state.log.report into.old into.new result }
    ensures rest { sim.new.state.log ≡ with_rest stream.Report sim.new.state.log.report sim.old.state.log }
    ensures same { sim.new.state.system ≡ sim.old.state.system }
{
    read(sim, Stream::Report, into)
}
