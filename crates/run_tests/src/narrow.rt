//! A writer that fails midway.
use std::io;
use std::io::{ErrorKind, Write};

/// Takes one byte a write, and once it was written so often fails, or takes nothing more.
#[derive(Drop)]
pub struct Narrow {
    pub got: Vec<u8>,
    writes: usize,
    kind: Option<ErrorKind>,
}

impl Write for Narrow {
    fn write(&mut self, buf: &[u8]) -> io::Result<usize> {
        if self.writes == 0 {
            return match self.kind {
                Some(kind) => Err(io::Error::from(kind)),
                None => Ok(0),
            };
        }
        self.writes -= 1;
        if buf.is_empty() {
            return Ok(0);
        }
        self.got
            .push(buf[0])
            .map_err(|_| io::Error::from(ErrorKind::OutOfMemory))?;
        Ok(1)
    }

    fn flush(&mut self) -> io::Result<()> {
        Ok(())
    }
}

pub fn taking(rt: &impl AllocGlobal, writes: usize, kind: Option<ErrorKind>) -> Narrow {
    Narrow {
        got: Vec::new(rt.alloc()),
        writes,
        kind,
    }
}
