//! A writer of what is said on a terminal.

use crate::meter::clear;
use std::io;
use std::io::Write;
use std::sync::atomic::AtomicBool;

/// Writes to a terminal, from which it clears the line of a meter first.
#[derive(Drop)]
pub struct Clearing<'a, W> {
    terminal: W,
    stands: &'a AtomicBool,
}

impl<'a, W: Write> Clearing<'a, W> {
    /// `stands` says whether a line stands on the terminal.
    pub fn new(terminal: W, stands: &'a AtomicBool) -> Self {
        Clearing { terminal, stands }
    }
}

impl<'a, W: Write> Write for Clearing<'a, W> {
    fn write(&mut self, buf: &[u8]) -> io::Result<usize> {
        clear(self.stands, &mut self.terminal);
        self.terminal.write(buf)
    }

    fn flush(&mut self) -> io::Result<()> {
        self.terminal.flush()
    }
}
