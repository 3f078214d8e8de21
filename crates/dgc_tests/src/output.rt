//! An output that takes nothing.
use std::io;
use std::io::Write;

/// Takes no byte.
#[derive(Clone, Copy)]
pub struct FullOutput;

impl Write for FullOutput {
    fn write(&mut self, _bytes: &[u8]) -> io::Result<usize> {
        Err(io::Error::from(io::ErrorKind::StorageFull))
    }

    fn flush(&mut self) -> io::Result<()> {
        Ok(())
    }
}
