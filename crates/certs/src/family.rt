//! The facts that fit a type.
ghost use Rattle.std.specs.Prelude.{◌≡◌, slice_get};
ghost use Rattle.certs.specs.Families as spec;
ghost use Rattle.ir_ast.specs.declared.op.Op.TheVariants.{Element as OfElement};
ghost use Rattle.types.specs.References.{layout_of_struct, struct_named};
ghost use Rattle.types.specs.ValueTypes.{instruction_at};

use ir_ast::{BlockId, Element, Function, IrType, LocalSort, Module, Op, TypeId, ValueId};
use pools::LayoutId;
use types::{element_type, is_opaque};

/// What a value is, and so which facts may be given of it.
#[derive(Clone, Copy)]
pub enum Family {
    /// A number of this number of bits: an integer, or a floating point number.
    Number(u32),
    /// A reference to cells of one layout.
    Reference(LayoutId),
    /// `i8*`, a reference to cells of a layout that the type leaves open.
    AnyReference,
    /// Any other pointer that says what it points to.
    Address,
    /// `ptr`, a reference to cells of whatever layout, or another pointer.
    Opaque,
    /// No value, or one that no register holds.
    Nothing,
}

/// The layout of the named struct that a type is.
fn layout_of_part(module: &Module, part: TypeId) -> Option<LayoutId>
    ensures { result ≡ layout_of_struct «module».now (slice_get «module».now.types part) }
{
    match module.types.get(part)? {
        IrType::Named(name) => layout_named(module, name.number() as usize),
        _ => None,
    }
}

fn layout_named(module: &Module, name: usize) -> Option<LayoutId>
    ensures { result ≡ struct_named «module».now name }
{
    match module.struct_of.get(name) {
        Some(layout) => *layout,
        None => None,
    }
}

fn family_of_pointer(module: &Module, part: TypeId) -> Family
    ensures { result ≡ spec.family_of_pointer «module».now part }
{
    if let Some(layout) = layout_of_part(module, part) {
        return Family::Reference(layout);
    }
    match module.types.get(part) {
        Some(IrType::Integer(8)) => Family::AnyReference,
        _ => Family::Address,
    }
}

/// What a value of this type is.
pub fn family_of_type(module: &Module, written: TypeId) -> Family
    ensures { result ≡ spec.family_of_type «module».now written }
{
    let Some(written) = module.types.get(written) else {
        return Family::Nothing;
    };
    match written {
        IrType::Integer(bits) => Family::Number(bits),
        IrType::Float => Family::Number(32),
        IrType::Double => Family::Number(64),
        IrType::Pointer(part) => family_of_pointer(module, part),
        IrType::Opaque => Family::Opaque,
        _ => Family::Nothing,
    }
}

/// Whether a module's text writes the type `ptr`.
pub fn is_opaque_text(module: &Module) -> bool
    ensures { result ≡ spec.is_opaque_text «module».now }
{
    module.types.find(IrType::Opaque).is_some()
}

/// What the name of a slot is.
fn family_of_slot(module: &Module, held: TypeId) -> Family
    ensures { result ≡ spec.family_of_slot «module».now held }
{
    if is_opaque_text(module) {
        Family::Opaque
    } else {
        family_of_pointer(module, held)
    }
}

/// What the value of a getelementptr is.
fn family_of_part(module: &Module, element: &Element) -> Family
    ensures { result ≡ spec.family_of_op «module».now (OfElement element.now) }
{
    if is_opaque(module, element.base_type) {
        return Family::Opaque;
    }
    match element_type(module, element.source, element.indices.as_slice()) {
        Some(part) => family_of_pointer(module, part),
        None => Family::Nothing,
    }
}

/// What the value of the getelementptr at a place of a block's body is.
fn family_of_element(module: &Module, function: &Function, block: BlockId, place: u32) -> Family
    ensures { result ≡ spec.family_of_element «module».now (instruction_at function.now block place) }
{
    let Some(block) = function.blocks.get(block.number() as usize) else {
        return Family::Nothing;
    };
    match block.body.get(place as usize) {
        Some(instr) => family_of_op(module, &instr.op),
        None => Family::Nothing,
    }
}

/// What the value of an instruction is, if it is a getelementptr.
fn family_of_op(module: &Module, op: &Op) -> Family
    ensures { result ≡ spec.family_of_op «module».now op.now }
{
    match op {
        Op::Element(element) => family_of_part(module, element),
        _ => Family::Nothing,
    }
}

/// What a local name's value is.
pub fn family_of_value(module: &Module, function: &Function, value: ValueId) -> Family
    ensures { result ≡ spec.family_of_value «module».now function.now value }
{
    match function.sorts.get(value.number() as usize) {
        Some(LocalSort::Value(written)) => family_of_type(module, *written),
        Some(LocalSort::Slot(held)) => family_of_slot(module, *held),
        Some(LocalSort::Element { block, place }) => {
            family_of_element(module, function, *block, *place)
        }
        _ => Family::Nothing,
    }
}

impl Family {
    /// Whether it is a reference to cells, of whatever layout.
    pub fn is_reference(self) -> bool
        ensures { result ≡ spec.is_reference self }
    {
        matches!(
            self,
            Family::Reference(_) | Family::AnyReference | Family::Opaque
        )
    }

    /// Whether it is a reference to cells of this layout.
    pub fn refers_to(self, layout: LayoutId) -> bool
        ensures { result ≡ spec.refers_to layout self }
    {
        match self {
            Family::Reference(own) => own == layout,
            Family::AnyReference | Family::Opaque => true,
            _ => false,
        }
    }

    /// The bits of an integer, if they are these.
    pub fn same_bits(self, bits: Option<u64>) -> Option<u32>
        ensures { result ≡ spec.same_bits self bits }
    {
        match (self, bits) {
            (Family::Number(own), Some(bits)) if own as u64 == bits => Some(own),
            _ => None,
        }
    }

    pub fn is_integer(self) -> bool
        ensures { result ≡ spec.is_integer self }
    {
        matches!(self, Family::Number(_))
    }

    /// Whether it is a pointer, which may be an address outside where the wide forms may stand.
    pub fn may_be_outside(&self, module: &Module) -> bool
        ensures { result ≡ spec.may_be_outside «module».now self.now }
    {
        match *self {
            Family::Number(_) | Family::Nothing => false,
            _ => module.wide,
        }
    }

    /// Whether it is a pointer that may be no reference.
    pub fn is_address(self) -> bool
        ensures { result ≡ spec.is_address self }
    {
        matches!(self, Family::Address | Family::Opaque)
    }
}
