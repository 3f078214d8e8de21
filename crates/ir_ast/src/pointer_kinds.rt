//! The two kinds of pointer types, of which a text has one.
ghost use Rattle.std.specs.Prelude.{◌≡◌};
ghost use Rattle.ir_ast.specs.PointerKinds as spec;

use crate::ir_type::IrType;
use crate::type_id::TypeId;
use crate::types::Types;

/// Whether this is a pointer that says what it points to.
fn is_typed_at(written: Option<IrType>) -> bool
    ensures { result ≡ spec.is_typed_at written }
{
    matches!(written, Some(IrType::Pointer(_)))
}

/// Whether a pointer that says what it points to is among these types (docs/TEXT.md).
pub fn has_typed_pointer(types: &Types) -> bool
    ensures { result ≡ spec.has_typed types.now }
{
    for number in 0..types.count() {
        if is_typed_at(types.get(TypeId::new(number as u32))) {
            return true;
        }
    }
    false
}
