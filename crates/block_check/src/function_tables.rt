ghost use Rattle.std.specs.Prelude.{◌≡◌, Some, slice_get, IfOk};
ghost use Rattle.block_rules.specs.Certified.{context_of};
ghost use Rattle.block_check.specs.Rows.{AreEntryFacts};
ghost use Rattle.block_check.specs.FunctionTables.{IsOf};
ghost use Rattle.block_check.specs.FunctionUnderCheck.{IsReady};

use crate::phi_operands::{PhiOperands, operands_of};
use crate::predecessors::Predecessors;
use crate::under_check::FunctionUnderCheck;
use block_rules::RuleContext;
use facts::KeptFacts;
use ir_ast::{FuncId, Function, Module};
use shadow_stack::{Slots, slots_of};
use std::alloc::{AllocError, Global};

/// What is found of a function once, for all its blocks.
#[derive(Drop)]
pub struct FunctionTables {
    pub slots: Slots,
    pub predecessors: Predecessors,
    pub operands: Vec<PhiOperands>,
}

impl FunctionTables {
    pub fn of(
        alloc: Global,
        module: &Module,
        function: &Function,
    ) -> Result<FunctionTables, AllocError>
        ensures { IfOk result (IsOf «module».now function.now) }
    {
        let operands = operands_of(alloc, function)?;
        let predecessors = Predecessors::of(alloc, function)?;
        let slots = slots_of(alloc, module, function)?;
        Ok(FunctionTables {
            slots,
            predecessors,
            operands,
        })
    }

    /// The function as it is checked. What its first blocks begin with may have been found before.
    pub fn under_check<'a>(
        &'a self,
        context: RuleContext<'a>,
        func: FuncId,
        rows: &'a [KeptFacts],
    ) -> FunctionUnderCheck<'a>
        requires of { IsOf context.program.now.of_module context.function.now self.now }
        requires slots { context.slots.now ≡ self.now.slots }
        requires there { slice_get context.program.now.of_module.functions func ≡ Some context.function.now }
        requires rows { AreEntryFacts (context_of context.program.now context.certs.now.sections context.function.now (slice_get context.certs.now.sections func)) rows.now }
        ensures ready { IsReady result }
        ensures func { result.func ≡ func }
        ensures program { result.context.program.now ≡ context.entry.program.now }
        ensures certs { result.context.certs.now.sections ≡ context.entry.certs.now.sections }
    {
        FunctionUnderCheck {
            func,
            context,
            predecessors: &self.predecessors,
            operands: self.operands.as_slice(),
            rows,
        }
    }
}
