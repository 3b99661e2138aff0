//! `kqsim`: reads a trace of what happened to a simulated FreeBSD system, and prints what each
//! kevent(2) call in it returned.
#![tactic(auto)]

use kq_command::{Order, parse_words, run_order, tell};
use kq_progress::{Clearing, Meter, Watched};
use kq_run::Fault;
use std::alloc::Global;
use std::env;
use std::fs::File;
use std::io::ErrorKind;
use std::process::ExitCode;
use std::sync::atomic::AtomicBool;

fn main(rt: HostRuntime) -> ExitCode {
    // Whether the line that tells how much was read stands on the terminal.
    let stands = AtomicBool::new(false);
    let (mut out, mut err) = (rt.stdout(), Clearing::new(rt.stderr(), &stands));
    let meter = Meter::on("kqsim", &rt, rt.stderr(), &stands);
    let status = match asked(&rt) {
        Ok((order, file)) => match file {
            Some(file) => {
                let mut input = Watched::new(file, meter);
                run_order(&rt, &order, &mut input, &mut out, &mut err)
            }
            None => {
                let mut input = Watched::new(rt.stdin(), meter);
                run_order(&rt, &order, &mut input, &mut out, &mut err)
            }
        },
        Err(fault) => {
            tell(fault, &mut err);
            fault.status()
        }
    };
    ExitCode::from(status)
}

/// The order of the command line, and the file that it names, opened; none for standard input.
fn asked(rt: &HostRuntime) -> Result<(Order, Option<File>), Fault> {
    let words = words(rt)?;
    let order = ordered(rt.alloc(), words.as_slice())?;
    let file = opened(rt, order.file())?;
    Ok((order, file))
}

/// The words after the program's name. Words that are no text are none of the program's.
fn words(rt: &HostRuntime) -> Result<Vec<String>, Fault> {
    let all = env::args(rt).map_err(|error| match error.kind() {
        ErrorKind::OutOfMemory => Fault::Memory,
        _ => Fault::Usage,
    })?;
    let mut words = Vec::new(rt.alloc());
    for word in all.skip(1) {
        words.push(word).map_err(|_| Fault::Memory)?;
    }
    Ok(words)
}

/// The order that the words give.
fn ordered(alloc: Global, words: &[String]) -> Result<Order, Fault> {
    let mut texts = Vec::new(alloc);
    for word in words {
        texts.push(word.as_str()).map_err(|_| Fault::Memory)?;
    }
    parse_words(alloc, texts.as_slice())
}

/// The file of this name; none for standard input, whose name is `-`.
fn opened(rt: &HostRuntime, name: &str) -> Result<Option<File>, Fault> {
    if name == "-" {
        return Ok(None);
    }
    let file = File::open(rt, name).map_err(|error| match error.kind() {
        ErrorKind::OutOfMemory => Fault::Memory,
        _ => Fault::Read,
    })?;
    Ok(Some(file))
}
