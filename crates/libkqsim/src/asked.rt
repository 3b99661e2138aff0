//! What C asks of one kqueue, and what the system tells. Nothing is changed.
ghost use Rattle.std.specs.Prelude.{◌≡◌};
ghost use Rattle.libkqsim.specs.Asked.{IsTold};
ghost use Rattle.libkqsim.specs.declared.asked.Question.TheVariants as question;

use kq_knote::Knote;
use kq_model::{Key, Why};
use kq_system::System;

/// What is asked.
#[derive(Debug, Drop, Clone, Copy)]
pub(crate) enum Question {
    /// When a timer expires next.
    Next,
    /// How many events a call with this room would give.
    Pending(u32),
    /// What is registered under a key.
    Registered(Key),
}

/// A question about the kqueue that a number of a process names.
#[derive(Debug, Drop, Clone, Copy)]
pub(crate) struct Asked {
    pub(crate) pid: u32,
    pub(crate) fd: u32,
    pub(crate) question: Question,
}

/// What the system tells, or why a call of kevent(2) by this number is impossible.
#[derive(Debug, Drop, Clone, Copy)]
pub(crate) enum Answer {
    Next(Option<u64>),
    Pending(u32),
    Registered(Option<Knote>),
    Impossible(Why),
}

/// When a timer expires next.
fn next(system: &System, asked: &Asked) -> Answer
    requires { asked.now.question ≡ question.Next }
    ensures { IsTold asked.now system.now result }
{
    match system.next_expiry(asked.pid, asked.fd) {
        Ok(next) => Answer::Next(next),
        Err(why) => Answer::Impossible(why),
    }
}

/// How many events are pending.
fn pending(system: &System, asked: &Asked, room: u32) -> Answer
    requires { asked.now.question ≡ question.Pending room }
    ensures { IsTold asked.now system.now result }
{
    match system.pending(asked.pid, asked.fd, room) {
        Ok(count) => Answer::Pending(count),
        Err(why) => Answer::Impossible(why),
    }
}

/// What is registered under a key.
fn registered(system: &System, asked: &Asked, key: Key) -> Answer
    requires { asked.now.question ≡ question.Registered key }
    ensures { IsTold asked.now system.now result }
{
    match system.registered(asked.pid, asked.fd, key) {
        Ok(knote) => Answer::Registered(knote),
        Err(why) => Answer::Impossible(why),
    }
}

/// The answer to a question. The system is as it was.
pub(crate) fn tell(system: &mut System, asked: &Asked) -> Answer
    ensures told { IsTold asked.now system.old result }
    ensures same { system.new ≡ system.old }
{
    match asked.question {
        Question::Next => next(system, asked),
        Question::Pending(room) => pending(system, asked, room),
        Question::Registered(key) => registered(system, asked, key),
    }
}
