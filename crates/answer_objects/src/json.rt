//! An answer as JSON.
use crate::answer::Answer;
use serde_json::to_vec;
use std::alloc::{AllocError, Global};

/// The answer as one object, on a line of its own.
pub fn json_of(alloc: Global, answer: &Answer) -> Result<Vec<u8>, AllocError> {
    match to_vec(alloc, answer) {
        Ok(text) => {
            let mut text = text;
            text.push(b'\n')?;
            Ok(text)
        }
        // Nothing but want of memory keeps an object from being written.
        Err(_refused) => Err(AllocError),
    }
}
