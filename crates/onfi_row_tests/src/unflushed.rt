//! A writer whose flush fails.

use onfi_sim::{Command, engine};
use std::alloc::Global;
use std::io;
use std::io::{Error, ErrorKind, Write};

/// Takes all that is written, and flushes nothing.
#[derive(Clone, Copy)]
struct Unflushed;

impl Write for Unflushed {
    fn write(&mut self, buf: &[u8]) -> io::Result<usize> {
        Ok(buf.len())
    }

    fn flush(&mut self) -> io::Result<()> {
        Err(Error::from(ErrorKind::Other))
    }
}

/// Whether an engine that writes to it says that a write failed.
pub(crate) fn is_told(alloc: Global) -> bool {
    let mut reader: &[u8] = b"end\n";
    let mut writer = Unflushed;
    engine(alloc, Command::Check, &mut reader, &mut writer).is_err()
}
