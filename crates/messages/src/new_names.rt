//! Names for values that are to be added to a function.
use crate::message::Message;
use ir_ast::{Function, ValueId, name_of_key};
use name_text::Blank;
use std::alloc::{AllocError, Global};

/// How many names are tried at most.
const TRIES: usize = 16;

/// These words and the name of a value.
fn joined(
    alloc: Global,
    function: &Function,
    words: &str,
    value: ValueId,
) -> Result<Vec<u8>, AllocError> {
    let mut name = Vec::from_slice(alloc, words.as_bytes())?;
    let key = function.locals.name_at(value.number() as usize);
    name.extend_from_slice(name_of_key(key))?;
    Ok(name)
}

/// A name that no local of the function has, or the last one that was tried.
fn taken_by_none(function: &Function, name: Vec<u8>) -> Result<Vec<u8>, AllocError> {
    let mut name = name;
    for _try in 0..TRIES {
        if function.locals.find(name.as_slice()).is_none() {
            return Ok(name);
        }
        name.extend_from_slice(b".1")?;
    }
    Ok(name)
}

/// These words and the name of a value, or more, so that no local of the function has the name.
fn new_name(
    alloc: Global,
    function: &Function,
    words: &str,
    value: ValueId,
) -> Result<Vec<u8>, AllocError> {
    taken_by_none(function, joined(alloc, function, words, value)?)
}

/// A name for a value that is made of another one: its sign, these words and the name of that.
pub fn put_new_name(
    alloc: Global,
    out: &mut Message,
    function: &Function,
    words: &str,
    value: ValueId,
) {
    let Ok(name) = new_name(alloc, function, words, value) else {
        return out.refuse();
    };
    out.put("%");
    out.put_name(name.as_slice(), Blank::Kept)
}
