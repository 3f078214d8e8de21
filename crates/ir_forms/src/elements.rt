//! getelementptr.
ghost use Rattle.std.specs.Prelude.{◌≡◌};
ghost use Rattle.ir_forms.specs.Input.{Reads};
ghost use Rattle.ir_forms.specs.Elements as form;

use crate::decorating::flagged_word;
use crate::fault::Fault;
use crate::input::Input;
use crate::lists::indices;
use crate::memory::place_of;
use crate::site::Site;
use ir_ast::{Element, ValueId};
use ir_tokens::Kind;
use std::alloc::Global;

/// getelementptr.
#[tactic(auto, unfolding(crate::specs::Elements::element))]
pub fn element(
    alloc: Global,
    input: &mut Input<'_>,
    site: Site,
    value: ValueId,
) -> Result<Element, Fault>
    ensures { Reads ((form.element site value).read input.old) result input.new }
{
    flagged_word(alloc, input)?;
    let source = input.any_type(alloc)?;
    input.expect(Kind::Comma)?;
    let base = place_of(alloc, input, &source)?;
    let indices = indices(alloc, input)?;
    input.set_element(value, site.block, site.place);
    Ok(Element {
        source: source.id,
        base_type: base.written,
        base: base.operand,
        indices,
    })
}
