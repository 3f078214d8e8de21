//! What an edit brings of a function, and what the function had before.
use certs::Section;
use ir_ast::{FuncId, Function};

/// The text of a section, and the function that it is of.
#[derive(Clone, Copy)]
pub struct SectionText<'a> {
    pub func: FuncId,
    pub bytes: &'a [u8],
}

/// A function as it was before an edit, by its number: its code and its section.
#[derive(Clone, Copy)]
pub struct OldFunction<'a> {
    pub func: FuncId,
    pub code: &'a Function,
    pub section: &'a Section,
}
