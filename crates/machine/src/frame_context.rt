ghost use Rattle.std.specs.Prelude.{◌≡◌};

use crate::value::Value;
use ir_ast::{Function, Module};
use layout::Program;
use shadow_stack::Slots;

/// What an instruction looks at: its program and function, and the registers of its frame.
#[derive(Clone, Copy)]
pub struct FrameContext<'a> {
    pub program: &'a Program,
    pub function: &'a Function,
    pub slots: &'a Slots,
    pub registers: &'a [Value],
}

impl<'a> FrameContext<'a> {
    /// The module of the program.
    pub fn of_module(&self) -> &Module
        ensures { result.now ≡ self.now.program.now.of_module }
    {
        self.program.module()
    }
}
