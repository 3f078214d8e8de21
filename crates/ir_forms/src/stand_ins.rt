//! Calls of intrinsics that are left out, in the place of which another value stands where the wide forms may.
ghost use Rattle.std.specs.Prelude.{◌≡◌};
ghost use Rattle.ir_forms.specs.Input.{Reads};
ghost use Rattle.ir_forms.specs.StandIns as form;

use crate::decorating::{Spot, decorations, past_brackets};
use crate::fault::Fault;
use crate::input::Input;
use crate::intrinsics::{begins_with, is_left_out};
use crate::lists::argument;
use ir_ast::{Cast, Constant, Operand, TypeId, ValueId};
use ir_tokens::Kind;
use std::alloc::Global;

/// What stands in the place of a call.
#[derive(Clone, Copy)]
pub enum StandIn {
    /// The call itself.
    Itself,
    /// Its first argument under another name.
    First,
    /// Null.
    Null,
}

/// What stands in the place of a call of the intrinsic with this name, which is left out.
fn stand_in_of(name: &[u8]) -> StandIn
    ensures { result ≡ form.stand_in_of name.now }
{
    if begins_with(name, b"llvm.expect.") {
        StandIn::First
    } else if begins_with(name, b"llvm.invariant.start") {
        StandIn::Null
    } else {
        StandIn::Itself
    }
}

/// What stands in the place of the call of the function that is named here.
pub fn stand_in(input: &Input<'_>) -> StandIn
    ensures { result ≡ form.stand_in input.now }
{
    if !(input.wide && input.sees(Kind::GlobalName)) {
        return StandIn::Itself;
    }
    let name = input.cursor.name();
    if is_left_out(true, name) {
        stand_in_of(name)
    } else {
        StandIn::Itself
    }
}

/// The first argument of a call under another name.
#[tactic(auto, unfolding(crate::specs::StandIns::first_of))]
pub fn first_of(alloc: Global, input: &mut Input<'_>, value: ValueId) -> Result<Cast, Fault>
    ensures { Reads ((form.first_of value).read input.old) result input.new }
{
    input.skip();
    input.expect(Kind::OpenRound)?;
    let first = argument(alloc, input)?;
    past_brackets(alloc, input)?;
    decorations(alloc, input, Spot::Call)?;
    input.set_type(value, first.written);
    Ok(Cast {
        from: first.written,
        operand: first.operand,
        to: first.written,
    })
}

/// Null of the type of a call's result.
#[tactic(auto, unfolding(crate::specs::StandIns::null_of))]
pub fn null_of(
    alloc: Global,
    input: &mut Input<'_>,
    value: ValueId,
    written: TypeId,
) -> Result<Cast, Fault>
    ensures { Reads ((form.null_of value written).read input.old) result input.new }
{
    input.skip();
    input.expect(Kind::OpenRound)?;
    past_brackets(alloc, input)?;
    decorations(alloc, input, Spot::Call)?;
    input.set_type(value, written);
    Ok(Cast {
        from: written,
        operand: Operand::Constant(Constant::Null),
        to: written,
    })
}
