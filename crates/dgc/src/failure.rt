//! What keeps the program from its answer.
use std::alloc::{AllocError, AllocFailed};
use std::io;

/// What keeps the program from its answer.
#[derive(Clone, Copy)]
pub enum Failure {
    Memory,
    /// A word of the command line is not UTF-8.
    Words,
    /// A write failed.
    Output,
    /// The variable DGC_EXPLAIN says nothing that it may.
    Setting,
    /// A file that the command writes is one of those that it reads.
    Overwritten,
    /// Both files that the command writes are one.
    WrittenTwice,
}

impl From<io::Error> for Failure {
    fn from(error: io::Error) -> Failure {
        match error.kind() {
            io::ErrorKind::OutOfMemory => Failure::Memory,
            _ => Failure::Output,
        }
    }
}

impl From<AllocError> for Failure {
    fn from(_refused: AllocError) -> Failure {
        Failure::Memory
    }
}

impl<T: Drop> From<AllocFailed<T>> for Failure {
    fn from(_refused: AllocFailed<T>) -> Failure {
        Failure::Memory
    }
}
