//! Lists of forms with an accumulator, on which each form may depend.
ghost use Rattle.std.specs.Prelude.{◌≡◌, [], suc};
ghost use Rattle.ir_forms.specs.ManyWith.{many_with_from};
ghost use Rattle.ir_forms.specs.Input.{Reads, left};

use crate::fault::Fault;
use crate::input::Input;
use items::Items;
use std::alloc::Global;

/// The accumulator after the forms of a list so far, and how a further form is read after them.
pub trait Following: Drop {
    ghost use Rattle.std.specs.Prelude.{Bool, IfOk};
    ghost use Rattle.ir_forms.specs.declared.input.Input.{Input};
    ghost use Rattle.ir_forms.specs.Input.{Outcome};

    /// What a form is read as.
    type Item: Drop;

    ghost form: { Self → Input → Outcome Self.Item };

    ghost ends: { Self → Input → Bool };

    ghost next: { Self → Self.Item → Self };

    /// Whether the list ends here.
    fn ends(&self, input: &Input<'_>) -> bool
        ensures { result ≡ ends self.now input.now };

    fn read(&mut self, alloc: Global, input: &mut Input<'_>) -> Result<Self::Item, Fault>
        ensures outcome { Reads (form self.old input.old) result input.new }
        ensures further { IfOk result (λ item. self.new ≡ next self.old item) };
}

/// Forms one after another, up to where the list ends; `first` is the accumulator before them.
pub fn many_with<F: Following>(
    alloc: Global,
    input: &mut Input<'_>,
    first: F,
) -> Result<Items<F::Item>, Fault>
    ensures { Reads (many_with_from F.ends F.form F.next (suc (left input.old)) first [] input.old) result input.new }
{
    let mut so_far = first;
    let mut found = Items::new(alloc);
    for _turn in 0..input.left() + 1 {
        if so_far.ends(input) {
            return Ok(found);
        }
        found.push(so_far.read(alloc, input)?)?;
    }
    Ok(found)
}
