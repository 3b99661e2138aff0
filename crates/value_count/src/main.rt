//! Reads standard input whole, reads each line into a JSON `Value`, and prints how many lines are one.
//!
//! This is the yardstick of the benchmark: what reading alone costs, with nothing done to what was read.
#![tactic(auto)]

mod count;

use std::io::{self, Read};

fn main(rt: HostRuntime) -> io::Result<()> {
    let mut bytes = Vec::new(rt.alloc());
    rt.stdin().read_to_end(&mut bytes)?;
    let values = count::count_values(rt.alloc(), bytes.as_slice())?;
    println!(rt; "{values} values")?;
    Ok(())
}
