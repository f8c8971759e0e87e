//! What is written is kept for the message beside it.
ghost use Rattle.std.specs.Prelude.{◌≡◌};

use std::alloc::Global;
use std::io::{Result, Write};

/// A writer that passes on what it is given, and keeps it where that is asked for and memory isn't refused.
#[derive(Drop)]
pub struct Keeping<W: Write> {
    inner: W,
    kept: Vec<u8>,
    keeps: bool,
}

impl<W: Write> Keeping<W> {
    /// With nothing kept.
    pub fn new(inner: W, alloc: Global, quiet: bool) -> Keeping<W> {
        Keeping {
            inner,
            kept: Vec::new(alloc),
            keeps: !quiet,
        }
    }

    /// What was passed on, up to the first byte that memory was refused to.
    pub fn kept(&self) -> &[u8] {
        self.kept.as_slice()
    }
}

impl<W: Write> Write for Keeping<W> {
    ghost contents = { λ k. W.contents k.inner };

    fn write(&mut self, buf: &[u8]) -> Result<usize> {
        let size = self.inner.write(buf)?;
        if self.keeps && self.kept.extend_from_slice(&buf[..size]).is_err() {
            self.keeps = false;
        }
        Ok(size)
    }

    fn flush(&mut self) -> Result<()> {
        self.inner.flush()
    }
}
