//! `kqcheck`: says whether the answers that a program recorded are right, and why not.
#![tactic(auto)]

mod explaining;
mod fault;
mod input;
mod order;
mod output;
mod running;
mod telling;
mod text;
mod words;

use fault::Fault;
use input::{MOST_BYTES, read_in};
use kq_progress::{Clearing, Meter, Watched};
use order::{Order, order_of};
use running::{Given, run_order, tell};
use std::alloc::Global;
use std::env;
use std::fs::File;
use std::io::ErrorKind;
use std::process::ExitCode;
use std::sync::atomic::AtomicBool;

fn main(rt: HostRuntime) -> ExitCode {
    // Whether the line that tells how much was read stands on the terminal.
    let stands = AtomicBool::new(false);
    let (mut out, mut err) = (rt.stdout(), Clearing::new(rt.stderr(), &stands));
    let status = match asked(&rt, &stands) {
        Ok((order, given)) => run_order(&rt, &order, &given, &mut out, &mut err),
        Err(fault) => {
            tell(fault, &mut err);
            fault.status()
        }
    };
    ExitCode::from(status)
}

/// The order of the command line, and what its files have.
fn asked(rt: &HostRuntime, stands: &AtomicBool) -> Result<(Order, Given), Fault> {
    let words = words_given(rt)?;
    let order = ordered(rt.alloc(), words.as_slice())?;
    let given = given_for(rt, stands, &order)?;
    Ok((order, given))
}

/// The words after the program's name. Words that are no text are none of the program's.
fn words_given(rt: &HostRuntime) -> Result<Vec<String>, Fault> {
    let all = env::args(rt).map_err(|error| match error.kind() {
        ErrorKind::OutOfMemory => Fault::Memory,
        _ => Fault::Usage,
    })?;
    let mut words = Vec::new(rt.alloc());
    for word in all.skip(1) {
        words.push(word).map_err(|_| Fault::Memory)?;
    }
    Ok(words)
}

/// The order that the words give.
fn ordered(alloc: Global, words: &[String]) -> Result<Order, Fault> {
    let mut texts = Vec::new(alloc);
    for word in words {
        texts.push(word.as_str()).map_err(|_| Fault::Memory)?;
    }
    order_of(alloc, texts.as_slice())
}

/// The files of an order, read whole.
fn given_for(rt: &HostRuntime, stands: &AtomicBool, order: &Order) -> Result<Given, Fault> {
    let (trace, answers) = match order {
        Order::Help => ("", ""),
        Order::Explain { trace, .. } => (trace.as_str(), ""),
        Order::Check { trace, answers, .. } => (trace.as_str(), answers.as_str()),
    };
    Ok(Given {
        trace: bytes_of(rt, stands, trace, Fault::ReadTrace)?,
        answers: bytes_of(rt, stands, answers, Fault::ReadAnswers)?,
    })
}

/// What a file has, or standard input by the name `-`; nothing where no file is named.
fn bytes_of(
    rt: &HostRuntime,
    stands: &AtomicBool,
    name: &str,
    unread: Fault,
) -> Result<Vec<u8>, Fault> {
    if name.is_empty() {
        return Ok(Vec::new(rt.alloc()));
    }
    let meter = Meter::on("kqcheck", rt, rt.stderr(), stands);
    if name == "-" {
        let mut input = Watched::new(rt.stdin(), meter);
        return read_in(rt.alloc(), &mut input, MOST_BYTES, unread);
    }
    let file = File::open(rt, name).map_err(|error| match error.kind() {
        ErrorKind::OutOfMemory => Fault::Memory,
        _ => unread,
    })?;
    read_in(
        rt.alloc(),
        &mut Watched::new(file, meter),
        MOST_BYTES,
        unread,
    )
}
