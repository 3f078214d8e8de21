ghost use Rattle.std.specs.Prelude.{◌≡◌, IfOk};

use items::Items;
use std::alloc::{AllocError, Global};

/// What is copied element by element.
pub trait Copied: Drop {
    fn copied(&self, alloc: Global) -> Result<Self, AllocError>
        ensures { IfOk result (λ copy. copy ≡ self.now) };
}

/// Copies of all elements.
pub fn copies<T: Copied>(alloc: Global, elements: &[T]) -> Result<Items<T>, AllocError>
    ensures { IfOk result (λ copies. copies ≡ elements.now) }
{
    let mut copies = Items::new(alloc);
    for element in elements {
        copies.push(element.copied(alloc)?)?;
    }
    Ok(copies)
}
