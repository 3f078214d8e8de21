ghost use Rattle.std.specs.Prelude.{◌≡◌};
ghost use Rattle.std.specs.List.{list_any};
ghost use Rattle.block_rules.specs.InstrContext.{is_collected_type, memory_moves, moves_reference, instruction_moves, phi_moves, block_moves, function_moves, is_shadow_stack, keeps_shadow_stack};

use ir_ast::{Argument, Block, Function, Instr, MemoryOp, Module, Op, Parameter, Phi, TypeId};
use items::Items;
use type_kinds::TypeKind;

/// Whether a function that moves references has a shadow stack.
pub fn keeps_shadow_stack(module: &Module, function: &Function) -> bool
    ensures { result ≡ keeps_shadow_stack «module».now function.now }
{
    is_shadow_stack(&function.collector) || !function_moves(module, function)
}

fn is_shadow_stack(collector: &Option<Items<u8>>) -> bool
    ensures { result ≡ is_shadow_stack collector.now }
{
    match collector {
        Some(text) => text.as_slice() == b"shadow-stack".as_slice(),
        None => false,
    }
}

fn function_moves(module: &Module, function: &Function) -> bool
    ensures { result ≡ function_moves «module».now function.now }
{
    is_collected_type(module, function.returned)
        || parameters_move(module, function.parameters.as_slice())
        || blocks_move(module, function.blocks.as_slice())
}

fn is_collected_type(module: &Module, written: TypeId) -> bool
    ensures { result ≡ is_collected_type «module».now written }
{
    TypeKind::of(module, written).may_be_reference()
}

fn parameters_move(module: &Module, parameters: &[Parameter]) -> bool
    ensures { result ≡ list_any (λ parameter. is_collected_type «module».now parameter.written) parameters.now }
{
    parameters
        .iter()
        .any(|parameter| is_collected_type(module, parameter.written))
}

fn arguments_move(module: &Module, arguments: &[Argument]) -> bool
    ensures { result ≡ list_any (λ argument. is_collected_type «module».now argument.written) arguments.now }
{
    arguments
        .iter()
        .any(|argument| is_collected_type(module, argument.written))
}

fn memory_moves(module: &Module, op: &MemoryOp) -> bool
    ensures { result ≡ memory_moves «module».now op.now }
{
    match op {
        MemoryOp::Alloca(_) | MemoryOp::Buffer { .. } => false,
        MemoryOp::Load { loaded, .. } => is_collected_type(module, *loaded),
        MemoryOp::Store { stored, .. } => is_collected_type(module, *stored),
    }
}

fn moves_reference(module: &Module, op: &Op) -> bool
    ensures { result ≡ moves_reference «module».now op.now }
{
    match op {
        Op::Memory(op) => memory_moves(module, op),
        Op::Choice(choice) => is_collected_type(module, choice.written),
        Op::Call(call) => {
            is_collected_type(module, call.returned)
                || arguments_move(module, call.arguments.as_slice())
        }
        _ => false,
    }
}

fn phis_move(module: &Module, phis: &[Phi]) -> bool
    ensures { result ≡ list_any (phi_moves «module».now) phis.now }
{
    phis.iter()
        .any(|phi| is_collected_type(module, phi.written))
}

fn instructions_move(module: &Module, body: &[Instr]) -> bool
    ensures { result ≡ list_any (instruction_moves «module».now) body.now }
{
    body.iter().any(|instr| moves_reference(module, &instr.op))
}

fn block_moves(module: &Module, block: &Block) -> bool
    ensures { result ≡ block_moves «module».now block.now }
{
    phis_move(module, block.phis.as_slice()) || instructions_move(module, block.body.as_slice())
}

fn blocks_move(module: &Module, blocks: &[Block]) -> bool
    ensures { result ≡ list_any (block_moves «module».now) blocks.now }
{
    blocks.iter().any(|block| block_moves(module, block))
}
