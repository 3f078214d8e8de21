use ir_ast::{IrType, Module, TypeId};
use number_tables::row_or;
use pools::LayoutId;
use std::alloc::{AllocError, Global};
use types::is_reference;

/// What a written type tells of where a pointer leads.
#[derive(Clone, Copy)]
pub enum PointerKind {
    /// To a cell of this layout.
    Reference(LayoutId),
    /// `i8*` or `ptr`: to a cell of a layout that it does not tell.
    AnyReference,
    /// To a word that holds a reference to a cell of this layout.
    Place(LayoutId),
    /// Nowhere that matters here, or it is no pointer.
    Other,
}

/// What each type of a module tells, by its number.
#[derive(Drop)]
pub struct PointerKinds {
    each: Vec<PointerKind>,
}

impl PointerKinds {
    pub fn of(alloc: Global, module: &Module) -> Result<PointerKinds, AllocError> {
        let mut each = Vec::new(alloc);
        let Ok(count) = u32::try_from(module.types.count()) else {
            return Ok(PointerKinds { each });
        };
        for number in 0..count {
            each.push(kind_of(module, TypeId::new(number)))?;
        }
        Ok(PointerKinds { each })
    }

    /// What a type tells.
    pub fn kind(&self, written: TypeId) -> PointerKind {
        row_or(&self.each, written.number() as usize, PointerKind::Other)
    }

    /// Whether a type is `i8*` or `ptr`.
    pub fn is_any(&self, written: TypeId) -> bool {
        matches!(self.kind(written), PointerKind::AnyReference)
    }
}

fn kind_of(module: &Module, written: TypeId) -> PointerKind {
    match module.types.get(written) {
        Some(ir_type) => kind_of_type(module, written, ir_type),
        None => PointerKind::Other,
    }
}

fn kind_of_type(module: &Module, written: TypeId, ir_type: IrType) -> PointerKind {
    match ir_type {
        IrType::Opaque => PointerKind::AnyReference,
        IrType::Pointer(part) => kind_of_pointer(module, written, part),
        _ => PointerKind::Other,
    }
}

/// What a pointer to this part tells.
fn kind_of_pointer(module: &Module, written: TypeId, part: TypeId) -> PointerKind {
    match is_reference(module, written) {
        Some(layout) => PointerKind::Reference(layout),
        None => kind_of_other(module, part),
    }
}

/// What a pointer tells that is no reference to a cell of a named struct.
fn kind_of_other(module: &Module, part: TypeId) -> PointerKind {
    if let Some(IrType::Integer(8)) = module.types.get(part) {
        return PointerKind::AnyReference;
    }
    match is_reference(module, part) {
        Some(layout) => PointerKind::Place(layout),
        None => PointerKind::Other,
    }
}
