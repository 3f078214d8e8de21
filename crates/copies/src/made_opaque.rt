//! What is made opaque element by element.
ghost use Rattle.std.specs.Prelude.{◌≡◌, ℕ, List, map, IfOk};

use ir_ast::TypeId;
use items::Items;
use std::alloc::{AllocError, Global};

/// What is written with types, which have new numbers.
pub trait MadeOpaque: Drop {
    /// The same with the new numbers.
    ghost opaque: { List ℕ → Self → Self };

    fn made_opaque(&self, alloc: Global, numbers: &[TypeId]) -> Result<Self, AllocError>
        ensures { IfOk result (λ made. made ≡ Self.opaque numbers.now self.now) };
}

/// All elements with the new numbers.
pub fn all_opaque<T: MadeOpaque>(
    alloc: Global,
    numbers: &[TypeId],
    elements: &[T],
) -> Result<Items<T>, AllocError>
    ensures { IfOk result (λ made. made ≡ map (T.opaque numbers.now) elements.now) }
{
    let mut made = Items::new(alloc);
    for element in elements {
        made.push(element.made_opaque(alloc, numbers)?)?;
    }
    Ok(made)
}
