use ir_ast::Function;
use layout::Program;
use shadow_stack::Slots;

/// The code that a frame runs: a function of a program, with its slots.
#[derive(Clone, Copy)]
pub struct FrameCode<'a> {
    pub program: &'a Program,
    pub function: &'a Function,
    pub slots: &'a Slots,
}
