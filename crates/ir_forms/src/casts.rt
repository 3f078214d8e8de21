//! Bitcasts, and values under other names.
ghost use Rattle.std.specs.Prelude.{◌≡◌};
ghost use Rattle.ir_forms.specs.Input.{Reads};
ghost use Rattle.ir_forms.specs.Casts as form;

use crate::fault::Fault;
use crate::input::Input;
use crate::lists::typed;
use ir_ast::{Cast, ValueId};
use ir_tokens::Kind;
use std::alloc::Global;

#[tactic(auto, unfolding(crate::specs::Casts::bitcast))]
pub fn bitcast(alloc: Global, input: &mut Input<'_>, value: ValueId) -> Result<Cast, Fault>
    ensures { Reads ((form.bitcast value).read input.old) result input.new }
{
    input.skip();
    let from = typed(alloc, input)?;
    input.expect(Kind::To)?;
    let to = input.scalar(alloc)?.id;
    input.set_type(value, to);
    Ok(Cast {
        from: from.written,
        operand: from.operand,
        to,
    })
}

/// Whether the next token is the word `freeze`, where the wide forms may stand.
#[tactic(auto, unfolding(crate::specs::Casts::freezes))]
pub fn freezes(input: &Input<'_>) -> bool
    ensures { result ≡ form.freezes input.now }
{
    input.wide && input.cursor.spelling() == b"freeze".as_slice()
}

/// The value under another name.
#[tactic(auto, unfolding(crate::specs::Casts::freeze))]
pub fn freeze(alloc: Global, input: &mut Input<'_>, value: ValueId) -> Result<Cast, Fault>
    ensures { Reads ((form.freeze value).read input.old) result input.new }
{
    input.skip();
    let frozen = typed(alloc, input)?;
    input.set_type(value, frozen.written);
    Ok(Cast {
        from: frozen.written,
        operand: frozen.operand,
        to: frozen.written,
    })
}
