//! Lists of forms.
ghost use Rattle.std.specs.Prelude.{◌≡◌, [], suc};
ghost use Rattle.grammar.specs.Many.{many_from};
ghost use Rattle.ir_forms.specs.Input.{Reads, left};

use crate::fault::Fault;
use crate::input::Input;
use items::Items;
use std::alloc::Global;

/// A form of which a list is made.
pub trait Listed {
    ghost use Rattle.std.specs.Prelude.{Bool};
    ghost use Rattle.ir_forms.specs.declared.input.Input.{Input};
    ghost use Rattle.ir_forms.specs.Input.{Outcome};

    /// What the form is read as.
    type Item: Drop;

    ghost form: { Input → Outcome Self.Item };

    ghost ends: { Input → Bool };

    /// Whether the list ends here.
    fn ends(input: &Input<'_>) -> bool
        ensures { result ≡ ends input.now };

    fn read(alloc: Global, input: &mut Input<'_>) -> Result<Self::Item, Fault>
        ensures { Reads (form input.old) result input.new };
}

/// Forms one after another, up to where the list ends.
pub fn many<F: Listed>(alloc: Global, input: &mut Input<'_>) -> Result<Items<F::Item>, Fault>
    ensures { Reads (many_from F.ends F.form (suc (left input.old)) [] input.old) result input.new }
{
    let mut found = Items::new(alloc);
    for _turn in 0..input.left() + 1 {
        if F::ends(input) {
            return Ok(found);
        }
        found.push(F::read(alloc, input)?)?;
    }
    Ok(found)
}
