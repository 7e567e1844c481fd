//! A writer that takes nothing.

use std::io;
use std::io::Write;

/// A writer that takes nothing of what it is given and refuses nothing: what is written to it whole
/// has failed.
#[derive(Clone, Copy, Debug, PartialEq, Eq)]
pub struct StuckWriter;

impl Write for StuckWriter {
    fn write(&mut self, _piece: &[u8]) -> io::Result<usize> {
        Ok(0)
    }

    fn flush(&mut self) -> io::Result<()> {
        Ok(())
    }
}
