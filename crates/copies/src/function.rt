//! Copies of functions.
ghost use Rattle.std.specs.Prelude.{◌≡◌, IfOk};

use crate::copied::{Copied, copies};
use crate::tables::copy_names;
use ir_ast::{Block, Call, Element, End, Function, Instr, Op, Phi};
use items::Items;
use std::alloc::{AllocError, Global};

impl Copied for Phi {
    fn copied(&self, alloc: Global) -> Result<Phi, AllocError> {
        Ok(Phi {
            value: self.value,
            written: self.written,
            incoming: Items::from_slice(alloc, self.incoming.as_slice())?,
        })
    }
}

fn copy_element(alloc: Global, element: &Element) -> Result<Element, AllocError>
    ensures { IfOk result (λ copy. copy ≡ element.now) }
{
    Ok(Element {
        source: element.source,
        base_type: element.base_type,
        base: element.base,
        indices: Items::from_slice(alloc, element.indices.as_slice())?,
    })
}

fn copy_call(alloc: Global, call: &Call) -> Result<Call, AllocError>
    ensures { IfOk result (λ copy. copy ≡ call.now) }
{
    Ok(Call {
        returned: call.returned,
        callee: call.callee,
        arguments: Items::from_slice(alloc, call.arguments.as_slice())?,
    })
}

fn copy_op(alloc: Global, op: &Op) -> Result<Op, AllocError>
    ensures { IfOk result (λ copy. copy ≡ op.now) }
{
    match op {
        Op::Number(number) => Ok(Op::Number(*number)),
        Op::Memory(memory) => Ok(Op::Memory(*memory)),
        Op::Element(element) => Ok(Op::Element(copy_element(alloc, element)?)),
        Op::Cast(cast) => Ok(Op::Cast(*cast)),
        Op::Choice(choice) => Ok(Op::Choice(*choice)),
        Op::Call(call) => Ok(Op::Call(copy_call(alloc, call)?)),
    }
}

impl Copied for Instr {
    fn copied(&self, alloc: Global) -> Result<Instr, AllocError> {
        Ok(Instr {
            result: self.result,
            op: copy_op(alloc, &self.op)?,
        })
    }
}

fn copy_end(alloc: Global, end: &End) -> Result<End, AllocError>
    ensures { IfOk result (λ copy. copy ≡ end.now) }
{
    match end {
        End::Jump(target) => Ok(End::Jump(*target)),
        End::Branch {
            condition_type,
            condition,
            taken,
            other,
        } => Ok(End::Branch {
            condition_type: *condition_type,
            condition: *condition,
            taken: *taken,
            other: *other,
        }),
        End::Switch {
            written,
            value,
            otherwise,
            cases,
        } => Ok(End::Switch {
            written: *written,
            value: *value,
            otherwise: *otherwise,
            cases: Items::from_slice(alloc, cases.as_slice())?,
        }),
        End::Unreachable => Ok(End::Unreachable),
        End::ReturnVoid => Ok(End::ReturnVoid),
        End::Return(argument) => Ok(End::Return(*argument)),
    }
}

impl Copied for Block {
    fn copied(&self, alloc: Global) -> Result<Block, AllocError> {
        let phis = copies(alloc, self.phis.as_slice())?;
        let body = copies(alloc, self.body.as_slice())?;
        let end = copy_end(alloc, &self.end)?;
        Ok(Block {
            label: self.label,
            phis,
            body,
            end,
        })
    }
}

/// The same name of a collector, if there is one.
pub fn copy_collector(
    alloc: Global,
    collector: &Option<Items<u8>>,
) -> Result<Option<Items<u8>>, AllocError>
    ensures { IfOk result (λ copy. copy ≡ collector.now) }
{
    match collector {
        None => Ok(None),
        Some(name) => Ok(Some(Items::from_slice(alloc, name.as_slice())?)),
    }
}

/// The same function.
pub fn copy_function(alloc: Global, function: &Function) -> Result<Function, AllocError>
    ensures { IfOk result (λ copy. copy ≡ function.now) }
{
    let parameters = Items::from_slice(alloc, function.parameters.as_slice())?;
    let collector = copy_collector(alloc, &function.collector)?;
    let locals = copy_names(alloc, &function.locals)?;
    let sorts = Items::from_slice(alloc, function.sorts.as_slice())?;
    let blocks = copies(alloc, function.blocks.as_slice())?;
    Ok(Function {
        symbol: function.symbol,
        returned: function.returned,
        parameters,
        collector,
        locals,
        sorts,
        blocks,
    })
}

impl Copied for Function {
    fn copied(&self, alloc: Global) -> Result<Function, AllocError> {
        copy_function(alloc, self)
    }
}
