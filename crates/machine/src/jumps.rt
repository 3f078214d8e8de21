//! Edges from block to block, and the values that phis take on them.
ghost use Rattle.std.specs.Prelude.{◌≡◌, slice_get};
ghost use Rattle.machine.specs.Jumps.{is_block, phis_of, entry_for, entry_fits, phi_fits, phis_fit, entry_value, phi_value, switch_edge, cases_fit};

use crate::frame_context::FrameContext;
use crate::kinds::{is_scalar, number_in};
use crate::operands::{constant_fits, constant_value, is_no_global, is_typed, operand_value};
use crate::value::Value;
use ir_ast::{BlockId, Case, Function, Incoming, Module, Operand, Phi, TypeId, ValueId};
use types::target_of;

/// The phis of the block with this number.
pub fn phis_of(function: &Function, block: BlockId) -> &[Phi]
    ensures { result.now ≡ phis_of (slice_get function.now.blocks block) }
{
    match function.blocks.get(block.number() as usize) {
        Some(block) => block.phis.as_slice(),
        None => &[],
    }
}

fn is_block(block: usize, other: Option<BlockId>) -> bool
    ensures { result ≡ is_block block other }
{
    match other {
        Some(other) => other.number() as usize == block,
        None => false,
    }
}

/// The entry of a phi for this block: the first that there is.
fn entry_for(function: &Function, from: usize, incoming: &[Incoming]) -> Option<Operand>
    ensures { result ≡ entry_for function.now from incoming.now }
{
    for entry in incoming {
        if is_block(from, target_of(function, entry.from)) {
            return Some(entry.operand);
        }
    }
    None
}

fn entry_fits(context: &FrameContext<'_>, written: TypeId, entry: Option<Operand>) -> bool
    ensures { result ≡ entry_fits context.now.program.now.of_module context.now.function.now context.now.slots.now written entry }
{
    match entry {
        Some(operand) => {
            is_no_global(context.of_module(), &operand)
                && is_typed(context, written, &operand)
                && (context.of_module().wide
                    || !context
                        .slots
                        .is_opaque_address(context.of_module(), written, operand))
        }
        None => true,
    }
}

fn phi_fits(context: &FrameContext<'_>, from: usize, phi: &Phi) -> bool
    ensures { result ≡ phi_fits context.now.program.now.of_module context.now.function.now context.now.slots.now from phi.now }
{
    is_scalar(context.of_module(), phi.written)
        && entry_fits(
            context,
            phi.written,
            entry_for(context.function, from, phi.incoming.as_slice()),
        )
}

/// Whether each of these phis may take its entry for this block.
pub fn phis_fit(context: &FrameContext<'_>, from: usize, phis: &[Phi]) -> bool
    ensures { result ≡ phis_fit context.now.program.now.of_module context.now.function.now context.now.slots.now from phis.now }
{
    phis.iter().all(|phi| phi_fits(context, from, phi))
}

fn entry_value(
    of_module: &Module,
    registers: &[Value],
    written: TypeId,
    entry: Option<Operand>,
) -> Value
    ensures { result ≡ entry_value of_module.now registers.now written entry }
{
    match entry {
        Some(operand) => operand_value(of_module, registers, written, &operand),
        None => Value::Unset,
    }
}

/// The value that a phi takes on the edge from this block.
pub fn phi_value(
    of_module: &Module,
    function: &Function,
    registers: &[Value],
    from: usize,
    phi: &Phi,
) -> Value
    ensures { result ≡ phi_value of_module.now function.now registers.now from phi.now }
{
    entry_value(
        of_module,
        registers,
        phi.written,
        entry_for(function, from, phi.incoming.as_slice()),
    )
}

/// The label to which a switch goes on at this number.
pub fn switch_edge(
    of_module: &Module,
    written: TypeId,
    number: u64,
    otherwise: ValueId,
    cases: &[Case],
) -> ValueId
    ensures { result ≡ switch_edge of_module.now written number otherwise cases.now }
{
    for case in cases {
        if number_in(&constant_value(of_module, written, case.constant)) == number {
            return case.target;
        }
    }
    otherwise
}

/// Whether each case of a switch is of its type.
pub fn cases_fit(of_module: &Module, written: TypeId, cases: &[Case]) -> bool
    ensures { result ≡ cases_fit of_module.now written cases.now }
{
    cases
        .iter()
        .all(|case| constant_fits(of_module, written, case.constant))
}
