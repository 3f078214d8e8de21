//! Why a row cannot be run.
use std::alloc::{AllocError, AllocFailed};
use std::io;

/// Why a row cannot be run.
#[derive(Clone, Copy)]
pub enum RowFailure {
    Memory,
    /// A file of the row is missing or malformed, or a write failed.
    Outside,
}

impl From<io::Error> for RowFailure {
    fn from(error: io::Error) -> RowFailure {
        match error.kind() {
            io::ErrorKind::OutOfMemory => RowFailure::Memory,
            _ => RowFailure::Outside,
        }
    }
}

impl From<AllocError> for RowFailure {
    fn from(_refused: AllocError) -> RowFailure {
        RowFailure::Memory
    }
}

impl<T: Drop> From<AllocFailed<T>> for RowFailure {
    fn from(_refused: AllocFailed<T>) -> RowFailure {
        RowFailure::Memory
    }
}
