use std::alloc::AllocError;
use thiserror::Error;

/// Why counts make no pools.
#[derive(Debug, Drop, Error)]
pub enum PoolsFault {
    #[error("there is not one count for each layout")]
    Mismatch,
    #[error("the cells are past the limit")]
    TooManyCells,
    #[error(transparent)]
    Memory(#[from(alloc)] AllocError),
}
