//! Functions with the new numbers of their types.
ghost use Rattle.std.specs.Prelude.{◌≡◌, IfOk};
ghost use Rattle.copies.specs.Opaque as spec;

use crate::function::copy_collector;
use crate::made_opaque::{MadeOpaque, all_opaque};
use crate::op::{opaque_argument, opaque_operand};
use crate::tables::copy_names;
use crate::type_numbers::new_number;
use ir_ast::{Block, End, Function, Incoming, LocalSort, Parameter, Phi, TypeId};
use items::Items;
use std::alloc::{AllocError, Global};

impl MadeOpaque for Incoming {
    ghost use Rattle.copies.specs.Opaque.{opaque_incoming};

    ghost opaque = { λ _. opaque_incoming };

    fn made_opaque(&self, _alloc: Global, _numbers: &[TypeId]) -> Result<Incoming, AllocError> {
        Ok(Incoming {
            operand: opaque_operand(self.operand),
            from: self.from,
        })
    }
}

impl MadeOpaque for Phi {
    ghost use Rattle.copies.specs.Opaque.{opaque_phi};

    ghost opaque = { opaque_phi };

    fn made_opaque(&self, alloc: Global, numbers: &[TypeId]) -> Result<Phi, AllocError> {
        Ok(Phi {
            value: self.value,
            written: new_number(numbers, self.written),
            incoming: all_opaque(alloc, numbers, self.incoming.as_slice())?,
        })
    }
}

fn opaque_end(alloc: Global, numbers: &[TypeId], end: &End) -> Result<End, AllocError>
    ensures { IfOk result (λ made. made ≡ spec.opaque_end numbers.now end.now) }
{
    match end {
        End::Jump(target) => Ok(End::Jump(*target)),
        End::Branch {
            condition_type,
            condition,
            taken,
            other,
        } => Ok(End::Branch {
            condition_type: new_number(numbers, *condition_type),
            condition: opaque_operand(*condition),
            taken: *taken,
            other: *other,
        }),
        End::Switch {
            written,
            value,
            otherwise,
            cases,
        } => Ok(End::Switch {
            written: new_number(numbers, *written),
            value: opaque_operand(*value),
            otherwise: *otherwise,
            cases: Items::from_slice(alloc, cases.as_slice())?,
        }),
        End::Unreachable => Ok(End::Unreachable),
        End::ReturnVoid => Ok(End::ReturnVoid),
        End::Return(argument) => Ok(End::Return(opaque_argument(numbers, *argument))),
    }
}

impl MadeOpaque for Block {
    ghost use Rattle.copies.specs.Opaque.{opaque_block};

    ghost opaque = { opaque_block };

    fn made_opaque(&self, alloc: Global, numbers: &[TypeId]) -> Result<Block, AllocError> {
        let phis = all_opaque(alloc, numbers, self.phis.as_slice())?;
        let body = all_opaque(alloc, numbers, self.body.as_slice())?;
        let end = opaque_end(alloc, numbers, &self.end)?;
        Ok(Block {
            label: self.label,
            phis,
            body,
            end,
        })
    }
}

impl MadeOpaque for Parameter {
    ghost use Rattle.copies.specs.Opaque.{opaque_parameter};

    ghost opaque = { opaque_parameter };

    fn made_opaque(&self, _alloc: Global, numbers: &[TypeId]) -> Result<Parameter, AllocError> {
        Ok(Parameter {
            written: new_number(numbers, self.written),
            value: self.value,
        })
    }
}

impl MadeOpaque for LocalSort {
    ghost use Rattle.copies.specs.Opaque.{opaque_sort};

    ghost opaque = { opaque_sort };

    fn made_opaque(&self, _alloc: Global, numbers: &[TypeId]) -> Result<LocalSort, AllocError> {
        match *self {
            LocalSort::Value(written) => Ok(LocalSort::Value(new_number(numbers, written))),
            LocalSort::Slot(held) => Ok(LocalSort::Slot(new_number(numbers, held))),
            other => Ok(other),
        }
    }
}

impl MadeOpaque for Function {
    ghost use Rattle.copies.specs.Opaque.{opaque_function};

    ghost opaque = { opaque_function };

    fn made_opaque(&self, alloc: Global, numbers: &[TypeId]) -> Result<Function, AllocError> {
        let collector = copy_collector(alloc, &self.collector)?;
        let locals = copy_names(alloc, &self.locals)?;
        let parameters = all_opaque(alloc, numbers, self.parameters.as_slice())?;
        let sorts = all_opaque(alloc, numbers, self.sorts.as_slice())?;
        let blocks = all_opaque(alloc, numbers, self.blocks.as_slice())?;
        Ok(Function {
            symbol: self.symbol,
            returned: new_number(numbers, self.returned),
            parameters,
            collector,
            locals,
            sorts,
            blocks,
        })
    }
}
