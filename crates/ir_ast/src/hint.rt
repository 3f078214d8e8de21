ghost use Rattle.std.specs.Prelude.{◌≡◌, IfSome};
ghost use Rattle.ir_ast.specs.Hints.{IsHinted};

use crate::ir_type::IrType;
use crate::type_id::TypeId;

/// How many hints there are.
pub(crate) const HINTS: usize = 64;

/// A type and its number.
#[derive(Clone, Copy)]
pub(crate) struct Hint {
    pub written: IrType,
    pub number: TypeId,
}

/// Which hint may be one of a type. No contract says which.
pub(crate) fn place_in_hints(written: &IrType) -> usize {
    match written {
        IrType::Integer(bits) => (*bits % 13) as usize,
        IrType::Pointer(pointee) => 16 + (pointee.number() % 32) as usize,
        IrType::Named(name) => 48 + (name.number() % 16) as usize,
        IrType::Float => 14,
        IrType::Double => 15,
        _ => 13,
    }
}

/// The number of a type, if it is among the hints.
pub(crate) fn hint_in(hints: &[Option<Hint>], sought: &IrType) -> Option<TypeId>
    ensures { IfSome result (IsHinted hints.now sought.now) }
{
    match hints.get(place_in_hints(sought)) {
        Some(Some(hint)) => {
            if hint.written == *sought {
                Some(hint.number)
            } else {
                None
            }
        }
        _ => None,
    }
}
