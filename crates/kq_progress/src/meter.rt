//! What passed of an input, and the line that tells of it.

use crate::pace::is_due;
use std::io::{IsTerminal, Write};
use std::sync::atomic::{AtomicBool, Ordering};
use std::time::{Clock, Instant};

/// The line on a terminal that tells how much was read.
#[derive(Drop)]
pub struct Meter<'a, C, W> {
    name: &'a str,
    clock: &'a C,
    terminal: W,
    stands: &'a AtomicBool,
    /// None where the clock could not be read.
    start: Option<Instant>,
    /// Milliseconds from the start to the last line.
    shown: Option<u64>,
    bytes: u64,
    lines: u64,
}

impl<'a, C: Clock, W: Write + IsTerminal + Drop> Meter<'a, C, W> {
    /// The meter of a read that begins, where `terminal` is one; else none.
    pub fn on(name: &'a str, clock: &'a C, terminal: W, stands: &'a AtomicBool) -> Option<Self> {
        if terminal.is_terminal() {
            Some(Meter::new(name, clock, terminal, stands))
        } else {
            None
        }
    }
}

impl<'a, C: Clock, W: Write> Meter<'a, C, W> {
    /// Nothing was read yet. The line begins with the name. `stands` says whether one stands on the terminal.
    fn new(name: &'a str, clock: &'a C, terminal: W, stands: &'a AtomicBool) -> Self {
        let start = Instant::now(clock).ok();
        Meter {
            name,
            clock,
            terminal,
            stands,
            start,
            shown: None,
            bytes: 0,
            lines: 0,
        }
    }

    /// These bytes were read. A line is shown where one is due.
    pub(crate) fn add(&mut self, bytes: &[u8]) {
        let ends = bytes.iter().filter(|byte| **byte == b'\n').count() as u64;
        self.bytes = self.bytes.saturating_add(bytes.len() as u64);
        self.lines = self.lines.saturating_add(ends);
        let Some(now) = self.passed() else {
            return;
        };
        if is_due(now, self.shown) {
            self.shown = Some(now);
            self.show(now);
        }
    }

    /// Milliseconds since the start.
    fn passed(&self) -> Option<u64> {
        let passed = self.start?.elapsed(self.clock).ok()?;
        u64::try_from(passed.as_millis()).ok()
    }

    /// Shows the line. A terminal that fails is passed over.
    fn show(&mut self, now: u64) {
        let Meter {
            name,
            terminal,
            bytes,
            lines,
            ..
        } = self;
        let pace = lines.saturating_mul(1000) / now.max(1);
        self.stands.store(true, Ordering::SeqCst);
        let _ = write!(
            terminal,
            "\r{name}: {bytes} bytes, {lines} lines, {pace} a second\x1b[K"
        );
    }

    /// Nothing more is read: no line stands on the terminal.
    pub(crate) fn end(&mut self) {
        clear(self.stands, &mut self.terminal);
    }
}

/// Clears the line that stands on a terminal, where one does. A terminal that fails is passed over.
pub(crate) fn clear<W: Write>(stands: &AtomicBool, terminal: &mut W) {
    if stands.swap(false, Ordering::SeqCst) {
        let _ = terminal.write_all(b"\r\x1b[K");
    }
}
