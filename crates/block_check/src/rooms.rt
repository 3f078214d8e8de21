//! Room in which blocks are checked, one after another.
use crate::edges::EdgeScratch;
use facts::Facts;
use std::alloc::{AllocError, Global};

/// What is known at a place of a block, and scratch for the edges out of it. Both are written anew for each block, so the functions that
/// are checked one after another share one room, which gets as large as the largest of them needs.
#[derive(Drop)]
pub struct CheckRooms {
    pub(crate) facts: Facts,
    pub(crate) scratch: EdgeScratch,
}

impl CheckRooms {
    /// Room for no values and slots yet.
    pub fn new(alloc: Global) -> Result<CheckRooms, AllocError> {
        let facts = Facts::new(alloc, 0, 0)?;
        match EdgeScratch::new(alloc) {
            Ok(scratch) => Ok(CheckRooms { facts, scratch }),
            Err(refused) => {
                drop(facts);
                Err(refused)
            }
        }
    }
}
