ghost use Rattle.std.specs.Prelude.{◌≡◌, Some, slice_get};
ghost use Rattle.types.specs.Elements.{body_named, field_in, written_out, field_at, index_number, part_at, part_after, element_type};

use crate::reference::struct_named;
use ir_ast::{Argument, Constant, IrType, Module, Operand, StructNameId, TypeId};

/// The struct type that a struct's name is defined as, if the name is defined.
pub fn body_named(module: &Module, name: StructNameId) -> Option<TypeId>
    ensures { result ≡ body_named «module».now name }
{
    let layout = struct_named(module, name.number() as usize)?;
    match module.structs.get(layout.number() as usize) {
        Some(named) => Some(named.body),
        None => None,
    }
}

/// The struct type that a type is when it is written out: of a name its body, and else the type itself.
pub fn written_out(module: &Module, written: TypeId) -> Option<TypeId>
    ensures { result ≡ written_out «module».now written (slice_get «module».now.types written) }
{
    match module.types.get(written)? {
        IrType::Named(name) => body_named(module, name),
        _ => Some(written),
    }
}

#[tactic(auto, using(crate::proofs::Fields::field_after))]
fn field_in(module: &Module, written: TypeId, number: u64) -> Option<TypeId>
    ensures { result ≡ field_in «module».now (slice_get «module».now.types written) number }
{
    let fields = module.types.after_fields(written, number)?;
    match module.types.get(fields)? {
        IrType::Struct { first, .. } => Some(first),
        _ => None,
    }
}

/// The type of a field, numbered from 0, of a struct type, which may be a name. Of n fields it is found by some log n jumps.
pub fn field_at(module: &Module, written: TypeId, number: u64) -> Option<TypeId>
    ensures { result ≡ field_at «module».now written number }
{
    field_in(module, written_out(module, written)?, number)
}

/// The number that an index is, if it is a constant of type i32, as an index into a struct has to be.
pub fn index_number(module: &Module, index: Argument) -> Option<u64>
    ensures { result ≡ index_number «module».now index }
{
    match (module.types.get(index.written)?, index.operand) {
        (IrType::Integer(32), Operand::Constant(Constant::Number(number))) => Some(number),
        _ => None,
    }
}

/// The part of a type that an index selects: of an array its elements' type, of a struct the field with that number.
pub fn part_at(module: &Module, written: TypeId, index: Argument) -> Option<TypeId>
    ensures { result ≡ part_at «module».now written index }
{
    match module.types.get(written)? {
        IrType::Array { part, .. } => match module.types.get(index.written)? {
            IrType::Integer(_) => Some(part),
            _ => None,
        },
        _ => field_at(module, written, index_number(module, index)?),
    }
}

fn part_after(module: &Module, written: TypeId, indices: &[Argument]) -> Option<TypeId>
    ensures { result ≡ part_after «module».now (Some written) indices.now }
{
    let mut part = written;
    for index in indices {
        part = part_at(module, part, *index)?;
    }
    Some(part)
}

/// The type that the indices of a getelementptr select. The first steps over the pointer itself, the others into its parts.
pub fn element_type(module: &Module, source: TypeId, indices: &[Argument]) -> Option<TypeId>
    ensures { result ≡ element_type «module».now source indices.now }
{
    match indices {
        [] => None,
        [_, parts @ ..] => part_after(module, source, parts),
    }
}
