//! What the text of a function is written by.
use ir_ast::{Module, Names};
use shadow_stack::Slots;

/// Where the names of a function's text stand, its slots, and whether a recorder is told of its steps.
#[derive(Clone, Copy)]
pub(crate) struct Scope<'a> {
    pub of_module: &'a Module,
    pub locals: &'a Names,
    pub slots: &'a Slots,
    pub recorded: bool,
}
