//! Functions outside that give an address, and those that have buffers: a text with one is not lowered.
ghost use Rattle.std.specs.Prelude.{◌≡◌};
ghost use Rattle.lowering.specs.Outside as spec;

use ir_ast::{Block, Declare, Function, IrType, MemoryOp, Module, Op, SymbolId};

/// Whether a function that is only declared, and is none of the runtime's, gives a pointer.
fn gives_address(of_module: &Module, declare: &Declare) -> bool
    ensures { result ≡ spec.gives_address of_module.now declare.now }
{
    declare.runtime.is_none()
        && matches!(
            of_module.types.get(declare.returned),
            Some(IrType::Pointer(_) | IrType::Opaque)
        )
}

/// The name of the first of these that does.
fn first_giver(of_module: &Module, declares: &[Declare]) -> Option<SymbolId>
    ensures { result ≡ spec.first_giver of_module.now declares.now }
{
    for declare in declares {
        if gives_address(of_module, declare) {
            return Some(declare.symbol);
        }
    }
    None
}

/// Whether an operation makes a buffer.
fn makes_buffer(op: &Op) -> bool
    ensures { result ≡ spec.makes_buffer op.now }
{
    matches!(op, Op::Memory(MemoryOp::Buffer { .. }))
}

fn block_makes_buffer(block: &Block) -> bool
    ensures { result ≡ spec.block_makes_buffer block.now }
{
    block
        .body
        .as_slice()
        .iter()
        .any(|instr| makes_buffer(&instr.op))
}

fn has_buffer(function: &Function) -> bool
    ensures { result ≡ spec.has_buffer function.now }
{
    function
        .blocks
        .as_slice()
        .iter()
        .any(|block| block_makes_buffer(block))
}

/// The name of the first of these functions that has a buffer.
fn first_holder(functions: &[Function]) -> Option<SymbolId>
    ensures { result ≡ spec.first_holder functions.now }
{
    for function in functions {
        if has_buffer(function) {
            return Some(function.symbol);
        }
    }
    None
}

/// The name of the first function outside that gives an address, or else of the first function that has a buffer, in a text with the
/// wide forms. No other text calls the one or has the other.
pub fn address_giver(of_module: &Module) -> Option<SymbolId>
    ensures { result ≡ spec.address_giver of_module.now }
{
    if !of_module.wide {
        return None;
    }
    match first_giver(of_module, of_module.declares.as_slice()) {
        Some(giver) => Some(giver),
        None => first_holder(of_module.functions.as_slice()),
    }
}
