//! Files, and positions in them.
use crate::message::Message;
use crate::parts::Part;
use ir_tokens::Position;
use std::alloc::Global;

/// A text, with the path of its file.
#[derive(Clone, Copy)]
pub struct NamedText<'a> {
    pub path: &'a str,
    pub text: &'a [u8],
}

/// A line and a column: `23:7`.
pub fn put_position(out: &mut Message, position: Position) {
    out.put_number(position.line as u64);
    out.put(":");
    out.put_number(position.column as u64)
}

/// A path and a position in its file: `plain.ll:23:7`.
pub fn put_path_at(out: &mut Message, path: &str, position: Position) {
    out.begin_part(Part::Place(Some(position)));
    out.put(path);
    out.begin_part(Part::Between);
    out.put(":");
    put_position(out, position)
}
