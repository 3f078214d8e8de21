ghost use Rattle.std.specs.Prelude.{◌≡◌};
ghost use Rattle.types.specs.ValueTypes.{element_of, instruction_at, has_type, target_of};

use crate::element::element_type;
use crate::reference::{points_to, type_eq};
use ir_ast::{BlockId, Function, LocalSort, Module, Op, TypeId, ValueId};

/// The type that the getelementptr at a place of a block's body selects.
pub fn element_of(
    module: &Module,
    function: &Function,
    block: BlockId,
    place: u32,
) -> Option<TypeId>
    ensures { result ≡ element_of «module».now (instruction_at function.now block place) }
{
    let block = function.blocks.get(block.number() as usize)?;
    let instr = block.body.get(place as usize)?;
    match &instr.op {
        Op::Element(element) => element_type(module, element.source, element.indices.as_slice()),
        _ => None,
    }
}

/// Whether a local name is a value of this written type.
pub fn has_type(module: &Module, function: &Function, written: TypeId, value: ValueId) -> bool
    ensures { result ≡ has_type «module».now function.now written value }
{
    match function.sorts.get(value.number() as usize) {
        Some(LocalSort::Value(given)) => type_eq(*given, written),
        Some(LocalSort::Slot(held)) => points_to(module, written, Some(*held)),
        Some(LocalSort::Element { block, place }) => points_to(
            module,
            written,
            element_of(module, function, *block, *place),
        ),
        _ => false,
    }
}

/// The block that a label names.
pub fn target_of(function: &Function, label: ValueId) -> Option<BlockId>
    ensures { result ≡ target_of function.now label }
{
    match function.sorts.get(label.number() as usize) {
        Some(LocalSort::Block(block)) => Some(*block),
        _ => None,
    }
}
