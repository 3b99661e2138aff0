//! What parts of a run take.

use std::io::{self, Write};
use std::time::{Clock, CpuClock, Duration, Instant};

/// Stopped at the end of each part.
#[derive(Drop)]
pub struct Watch {
    begun: Instant,
    used: Duration,
}

impl Watch {
    /// Where the first part begins.
    pub fn start<R: Clock + CpuClock>(rt: &R) -> io::Result<Watch> {
        Ok(Watch {
            begun: Instant::now(rt)?,
            used: rt.process_cpu_time()?,
        })
    }

    /// Writes what a part took, and starts the next one.
    pub fn lap<R: Clock + CpuClock, W: Write>(
        &mut self,
        rt: &R,
        part: &str,
        out: &mut W,
    ) -> io::Result<()> {
        let Watch { begun, used } = Watch::start(rt)?;
        let clock = begun.saturating_duration_since(self.begun).as_nanos();
        let processors = used.saturating_sub(self.used).as_nanos();
        writeln!(out, "{part} {clock} {processors}")?;
        *self = Watch::start(rt)?;
        Ok(())
    }
}
