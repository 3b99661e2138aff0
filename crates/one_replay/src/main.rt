//! A replay as a library: the report of a trace, by two workers.
#![tactic(auto)]

use kq_run::replay;
use std::io;
use std::io::Write;

/// A process makes a kqueue and polls it.
const TRACE: &str = concat!(
    "{\"kqsim\":1}\n",
    "{\"op\":\"proc\",\"pid\":1}\n",
    "{\"op\":\"kqueue\",\"pid\":1,\"fd\":3}\n",
    "{\"op\":\"kevent\",\"pid\":1,\"fd\":3,\"changes\":[],\"room\":4}\n",
);

fn main(rt: HostRuntime) -> io::Result<()> {
    match replay(&rt, TRACE.as_bytes(), 2) {
        Ok(report) => rt.stdout().write_all(report.as_slice()),
        Err(fault) => println!(rt; "{fault}"),
    }
}
