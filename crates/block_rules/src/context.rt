ghost use Rattle.std.specs.Prelude.{◌≡◌};

use certs::Certs;
use ir_ast::{Function, Module};
use layout::Program;
use shadow_stack::Slots;

/// What the rules look at besides what is known.
#[derive(Clone, Copy)]
pub struct RuleContext<'a> {
    pub program: &'a Program,
    /// Those of all functions that the module defines.
    pub certs: &'a Certs,
    pub function: &'a Function,
    pub slots: &'a Slots,
}

impl<'a> RuleContext<'a> {
    /// The module of the function.
    pub fn module(&self) -> &'a Module
        ensures { result.now ≡ self.now.program.now.of_module }
    {
        self.program.module()
    }
}
