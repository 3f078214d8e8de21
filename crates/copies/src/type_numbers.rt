//! The table of types with `ptr` for each pointer.
ghost use Rattle.std.specs.Prelude.{◌≡◌, Some, IfOk, OnOk, slice_get};
ghost use Rattle.copies.specs.Opaque as spec;

use ir_ast::{IrType, TypeId, Types};
use items::Items;
use std::alloc::{AllocError, Global};

/// The number that a type gets; a number outside the table stays.
pub fn new_number(numbers: &[TypeId], written: TypeId) -> TypeId
    ensures { result ≡ spec.new_number numbers.now written }
{
    match numbers.get(written.number() as usize) {
        Some(number) => *number,
        None => written,
    }
}

fn opaque_type(numbers: &[TypeId], written: IrType) -> IrType
    ensures { result ≡ spec.opaque_type numbers.now written }
{
    match written {
        IrType::Pointer(_) => IrType::Opaque,
        IrType::Array { length, part } => IrType::Array {
            length,
            part: new_number(numbers, part),
        },
        IrType::Struct { first, rest } => IrType::Struct {
            first: new_number(numbers, first),
            rest: new_number(numbers, rest),
        },
        other => other,
    }
}

/// A table of types, and the number in it of each type of another table.
#[derive(Drop)]
pub struct Renumbered {
    pub types: Types,
    pub numbers: Items<TypeId>,
}

impl Renumbered {
    fn add(&mut self, written: IrType) -> Result<(), AllocError>
        ensures types { OnOk result (self.new.types ≡ (spec.with_type written (record { types = self.old.types; numbers = self.old.numbers })).types) }
        ensures numbers { OnOk result (self.new.numbers ≡ (spec.with_type written (record { types = self.old.types; numbers = self.old.numbers })).numbers) }
    {
        let number = self
            .types
            .number(opaque_type(self.numbers.as_slice(), written))?;
        self.numbers.push(number)
    }
}

/// A whole table, with `ptr` for each pointer.
pub fn opaque_types(alloc: Global, types: &Types) -> Result<Renumbered, AllocError>
    ensures types { IfOk result (λ made. made.types ≡ (spec.opaque_types types.now).types) }
    ensures numbers { IfOk result (λ made. made.numbers ≡ (spec.opaque_types types.now).numbers) }
{
    let mut made = Renumbered {
        types: Types::new(alloc, types.key()),
        numbers: Items::new(alloc),
    };
    for number in 0..types.count() {
        if let Some(written) = types.get(TypeId::new(number as u32)) {
            made.add(written)?;
        }
    }
    Ok(made)
}
