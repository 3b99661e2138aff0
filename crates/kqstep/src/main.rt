//! `kqstep`: answers each record of a trace as it comes.
#![tactic(auto)]

mod order;
mod running;

use kq_step::Fault;
use order::{Order, order_of};
use running::{run_order, tell};
use std::env;
use std::io::ErrorKind;
use std::process::ExitCode;

fn main(rt: HostRuntime) -> ExitCode {
    let (mut out, mut err) = (rt.stdout(), rt.stderr());
    let status = match asked(&rt) {
        Ok(order) => run_order(rt.alloc(), order, &mut rt.stdin(), &mut out, &mut err),
        Err(fault) => {
            tell(fault, &mut err);
            fault.status()
        }
    };
    ExitCode::from(status)
}

/// The order of the command line. Words that are no text are none of the program's.
fn asked(rt: &HostRuntime) -> Result<Order, Fault> {
    let all = env::args(rt).map_err(|error| match error.kind() {
        ErrorKind::OutOfMemory => Fault::Memory,
        _ => Fault::Usage,
    })?;
    let mut words = Vec::new(rt.alloc());
    for word in all.skip(1) {
        words.push(word).map_err(|_| Fault::Memory)?;
    }
    let mut texts = Vec::new(rt.alloc());
    for word in &words {
        texts.push(word.as_str()).map_err(|_| Fault::Memory)?;
    }
    order_of(texts.as_slice())
}
