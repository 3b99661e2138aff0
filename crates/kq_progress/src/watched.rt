//! A reader that is watched.

ghost use Rattle.std.specs.Prelude.{◌≡◌};
ghost use Rattle.kq_progress.specs.Watched.{watched_remaining};

use crate::meter::Meter;
use std::io;
use std::io::{IsTerminal, Read, Write};
use std::time::Clock;

/// Reads what another reader has, and tells a meter of it.
#[derive(Drop)]
pub struct Watched<'a, I, C, W> {
    inner: I,
    meter: Option<Meter<'a, C, W>>,
}

impl<'a, I: Read + IsTerminal, C: Clock, W: Write + Drop> Watched<'a, I, C, W> {
    /// All that the reader has. Nobody is told where there is no meter, nor of what is typed on a terminal.
    pub fn new(inner: I, meter: Option<Meter<'a, C, W>>) -> Self
        ensures { watched_remaining I.remaining result ≡ I.remaining inner }
    {
        let meter = if inner.is_terminal() { None } else { meter };
        Watched { inner, meter }
    }
}

impl<'a, I: Read, C: Clock, W: Write> Read for Watched<'a, I, C, W> {
    ghost use Rattle.kq_progress.specs.Watched.{watched_remaining};

    ghost remaining = { watched_remaining I.remaining };

    fn read(&mut self, buf: &mut [u8]) -> io::Result<usize> {
        let result = self.inner.read(buf);
        if let Some(meter) = &mut self.meter {
            match &result {
                Ok(count) if *count > 0 => meter.add(&buf[..*count]),
                _ => meter.end(),
            }
        }
        result
    }
}
