//! Parts of the lines.
use crate::listing::Listing;
use crate::put_event::Names;
use ir_ast::FuncId;
use machine::FramePlace;
use messages::Message;
use moves::Actor;
use name_text::Blank;
use serde::Serialize;
use serde_json::to_vec;
use std::alloc::{AllocError, Global};

/// Writes a line.
pub fn put_line<T: Serialize>(alloc: Global, out: &mut Message, line: &T) {
    match to_vec(alloc, line) {
        Ok(text) => {
            out.put_bytes(text.as_slice());
            out.put("\n");
        }
        // Nothing but want of memory keeps a line from being written.
        Err(_refused) => out.refuse(),
    }
}

/// A text that has no bytes but those of UTF-8; otherwise an empty one.
pub fn text_in(bytes: &[u8]) -> &str {
    match str::from_utf8(bytes) {
        Ok(text) => text,
        Err(_) => "",
    }
}

/// The number of a thread; none of the collector.
pub fn thread_in(actor: &Actor) -> Option<u32> {
    match actor {
        Actor::Thread(number) => Some(*number),
        Actor::Collector => None,
    }
}

/// The name of a function, with its sign.
pub fn function_name(names: &Names, function: FuncId) -> Result<Vec<u8>, AllocError> {
    let mut name = Message::new(names.alloc);
    if let Some(function) = names.module.functions.get(function.number() as usize) {
        name.put_global(names.module, function.symbol, Blank::Kept);
    }
    name.finish()
}

/// The place of an instruction.
pub fn place_name(
    names: &Names,
    listing: &Listing,
    place: &FramePlace,
) -> Result<Vec<u8>, AllocError> {
    let mut name = Message::new(names.alloc);
    listing.put_place(&mut name, names.module, place);
    name.finish()
}
