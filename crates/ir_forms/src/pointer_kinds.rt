//! The two kinds of pointer types, of which a text has one.
ghost use Rattle.std.specs.Prelude.{◌≡◌};
ghost use Rattle.ir_forms.specs.Input.{Reads};
ghost use Rattle.ir_forms.specs.Written as form;

use crate::fault::Fault;
use crate::input::Input;
use ir_ast::{IrType, TypeId, Types, has_typed_pointer};

/// Whether `ptr` is among these types.
fn has_opaque(types: &Types) -> bool
    ensures { result ≡ form.has_opaque types.now }
{
    types.find(IrType::Opaque).is_some()
}

impl<'a> Input<'a> {
    /// Whether this pointer type is the first one of its kind, after pointers of the other kind.
    #[tactic(auto, unfolding(crate::specs::Written::is_second_kind))]
    fn is_second_kind(&self, new: &IrType) -> bool
        ensures { result ≡ form.is_second_kind new.now self.now }
    {
        if self.types.find(*new).is_some() {
            return false;
        }
        match new {
            IrType::Pointer(_) => has_opaque(&self.types),
            IrType::Opaque => has_typed_pointer(&self.types),
            _ => false,
        }
    }

    /// The place of a pointer type that is written from `start` on.
    #[tactic(auto, unfolding(crate::specs::Written::intern_pointer))]
    pub fn intern_pointer(&mut self, start: u32, new: IrType) -> Result<TypeId, Fault>
        ensures { Reads ((form.intern_pointer start new).read self.old) result self.new }
    {
        if let Some(id) = self.types.find(new) {
            return Ok(TypeId::new(id.number()));
        }
        let is_other = self.is_second_kind(&new);
        let id = self.intern(new)?;
        if is_other {
            return Err(Fault::OtherPointer(start));
        }
        Ok(id)
    }

    /// `ptr`. Returns its place.
    #[tactic(auto, unfolding(crate::specs::Written::opaque_type))]
    pub fn opaque_type(&mut self) -> Result<TypeId, Fault>
        ensures { Reads (form.opaque_type.read self.old) result self.new }
    {
        let start = self.cursor.start();
        self.skip();
        self.intern_pointer(start, IrType::Opaque)
    }
}
