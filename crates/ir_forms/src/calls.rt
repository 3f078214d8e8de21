//! Calls.
ghost use Rattle.std.specs.Prelude.{◌≡◌};
ghost use Rattle.ir_forms.specs.Input.{Reads};
ghost use Rattle.ir_forms.specs.Calls as form;

use crate::decorating::{Spot, decorations};
use crate::fault::Fault;
use crate::input::Input;
use crate::listed::{Listed, many};
use crate::lists::{Arguments, dots, dotted_arguments, ends_parameters, separator};
use crate::records::trailed;
use crate::stand_ins::{StandIn, first_of, null_of, stand_in};
use crate::starts::is_indirect_callee;
use ir_ast::{Argument, Call, Instr, IrType, Op, SymbolId, TypeId, ValueId};
use ir_tokens::Kind;
use items::Items;
use std::alloc::Global;

/// The function that is called.
#[tactic(auto, unfolding(crate::specs::Calls::called))]
fn called(alloc: Global, input: &mut Input<'_>) -> Result<SymbolId, Fault>
    ensures { Reads (form.called.read input.old) result input.new }
{
    match input.kind() {
        Kind::GlobalName => input.callee(alloc),
        kind => Err(input.refuse(is_indirect_callee(kind))),
    }
}

// ---- the types of a function's parameters, before its name

/// The types of a function's parameters.
struct ParameterTypes;

impl Listed for ParameterTypes {
    ghost use Rattle.ir_forms.specs.Lists.{ends_parameters};
    ghost use Rattle.ir_forms.specs.Calls.{parameter};

    type Item = TypeId;

    ghost form = { parameter.read };

    ghost ends = { ends_parameters };

    fn ends(input: &Input<'_>) -> bool {
        ends_parameters(input)
    }

    #[tactic(auto, unfolding(crate::specs::Calls::parameter))]
    fn read(alloc: Global, input: &mut Input<'_>) -> Result<TypeId, Fault> {
        let written = input.any_type(alloc)?.id;
        separator(input, Kind::CloseRound)?;
        Ok(written)
    }
}

/// How many parameters come before the dots, if there are any.
fn before_dots(fixed: usize, has_dots: bool) -> Option<usize>
    ensures { result ≡ form.before_dots fixed has_dots }
{
    if has_dots { Some(fixed) } else { None }
}

/// What follows the bracket before the types of parameters.
fn signature_after(alloc: Global, input: &mut Input<'_>) -> Result<Option<usize>, Fault>
    ensures { Reads (form.signature_after.read input.old) result input.new }
{
    let types = many::<ParameterTypes>(alloc, input)?;
    let has_dots = dots(input);
    input.expect(Kind::CloseRound)?;
    if input.sees(Kind::Star) {
        return Err(input.left_out());
    }
    Ok(before_dots(types.len(), has_dots))
}

/// The types of the parameters, if they are here. Returns how many the function has before its dots, if it has dots.
#[tactic(auto, unfolding(crate::specs::Calls::signature, crate::specs::Calls::begins_signature))]
fn signature(alloc: Global, input: &mut Input<'_>) -> Result<Option<usize>, Fault>
    ensures { Reads (form.signature.read input.old) result input.new }
{
    if !input.wide || !input.sees(Kind::OpenRound) {
        return Ok(None);
    }
    input.skip();
    signature_after(alloc, input)
}

// ---- a call after the type of its result

/// The arguments of a function that has this many parameters before its dots, or no dots.
#[tactic(auto, unfolding(crate::specs::Lists::arguments))]
fn arguments_by(
    alloc: Global,
    input: &mut Input<'_>,
    fixed: Option<usize>,
) -> Result<Items<Argument>, Fault>
    ensures { Reads ((form.arguments_by fixed).read input.old) result input.new }
{
    match fixed {
        None => many::<Arguments>(alloc, input),
        Some(fixed) => dotted_arguments(alloc, input, fixed),
    }
}

/// A call after the type of its result.
#[tactic(auto, unfolding(crate::specs::Calls::call_after))]
fn call_after(alloc: Global, input: &mut Input<'_>, returned: TypeId) -> Result<Call, Fault>
    ensures { Reads ((form.call_after returned).read input.old) result input.new }
{
    let fixed = signature(alloc, input)?;
    let callee = called(alloc, input)?;
    input.expect(Kind::OpenRound)?;
    let arguments = arguments_by(alloc, input, fixed)?;
    input.expect(Kind::CloseRound)?;
    decorations(alloc, input, Spot::Call)?;
    Ok(Call {
        returned,
        callee,
        arguments,
    })
}

/// A call after the type of its result, which is that of this value.
fn call_of(
    alloc: Global,
    input: &mut Input<'_>,
    value: ValueId,
    returned: TypeId,
) -> Result<Call, Fault>
    ensures { Reads ((form.call_of value returned).read input.old) result input.new }
{
    let call = call_after(alloc, input, returned)?;
    input.set_type(value, returned);
    Ok(call)
}

/// A call after its word, whose value is this one.
fn typed_call(alloc: Global, input: &mut Input<'_>, value: ValueId) -> Result<Call, Fault>
    ensures { Reads ((form.typed_call value).read input.old) result input.new }
{
    let returned = input.result_type(alloc)?.id;
    call_of(alloc, input, value, returned)
}

/// A call after its word, whose value has this name, or what stands in its place.
fn named_call(alloc: Global, input: &mut Input<'_>, value: ValueId) -> Result<Op, Fault>
    ensures { Reads ((form.named_call value).read input.old) result input.new }
{
    let returned = input.result_type(alloc)?.id;
    match stand_in(input) {
        StandIn::Itself => Ok(Op::Call(call_of(alloc, input, value, returned)?)),
        StandIn::First => Ok(Op::Cast(first_of(alloc, input, value)?)),
        StandIn::Null => Ok(Op::Cast(null_of(alloc, input, value, returned)?)),
    }
}

/// A call whose value has this name.
#[tactic(auto, unfolding(crate::specs::Calls::call))]
pub fn call(alloc: Global, input: &mut Input<'_>, value: ValueId) -> Result<Op, Fault>
    ensures { Reads ((form.call value).read input.old) result input.new }
{
    input.skip();
    decorations(alloc, input, Spot::Result)?;
    named_call(alloc, input, value)
}

/// An instruction with this value, and the decorations after it.
pub fn valued(alloc: Global, input: &mut Input<'_>, value: ValueId, op: Op) -> Result<Instr, Fault>
    ensures { Reads ((form.valued value op).read input.old) result input.new }
{
    let op = trailed(alloc, input, op)?;
    Ok(Instr {
        result: Some(value),
        op,
    })
}

/// An instruction without a value, and the decorations after it.
pub fn unnamed(alloc: Global, input: &mut Input<'_>, op: Op) -> Result<Instr, Fault>
    ensures { Reads ((form.unnamed op).read input.old) result input.new }
{
    let op = trailed(alloc, input, op)?;
    Ok(Instr { result: None, op })
}

/// A call without a value, after its word.
#[tactic(auto, unfolding(crate::specs::Calls::void_call))]
fn void_call(alloc: Global, input: &mut Input<'_>) -> Result<Call, Fault>
    ensures { Reads (form.void_call.read input.old) result input.new }
{
    input.skip();
    let returned = input.intern(IrType::Void)?;
    call_after(alloc, input, returned)
}

/// A call whose value takes the next number.
#[tactic(auto, unfolding(crate::specs::Calls::numbered_call))]
fn numbered_call(alloc: Global, input: &mut Input<'_>) -> Result<Instr, Fault>
    ensures { Reads (form.numbered_call.read input.old) result input.new }
{
    let value = input.unnamed_value(alloc)?;
    let call = typed_call(alloc, input, value)?;
    valued(alloc, input, value, Op::Call(call))
}

/// A call without the name of a value.
#[tactic(auto, unfolding(crate::specs::Calls::call_statement))]
pub fn call_statement(alloc: Global, input: &mut Input<'_>) -> Result<Instr, Fault>
    ensures { Reads (form.call_statement.read input.old) result input.new }
{
    input.skip();
    decorations(alloc, input, Spot::Result)?;
    match input.kind() {
        Kind::Void => {
            let call = void_call(alloc, input)?;
            unnamed(alloc, input, Op::Call(call))
        }
        _ => numbered_call(alloc, input),
    }
}

/// A word before a call.
fn sees_call(input: &mut Input<'_>) -> Result<(), Fault>
    ensures { Reads (form.sees_call.read input.old) result input.new }
{
    input.skip();
    if !input.sees(Kind::Call) {
        return Err(input.refuse(false));
    }
    Ok(())
}

/// A call whose value has this name, with a word before it.
#[tactic(auto, unfolding(crate::specs::Calls::tail_call))]
pub fn tail_call(alloc: Global, input: &mut Input<'_>, value: ValueId) -> Result<Op, Fault>
    ensures { Reads ((form.tail_call value).read input.old) result input.new }
{
    sees_call(input)?;
    call(alloc, input, value)
}

/// A call without the name of a value, with a word before it.
#[tactic(auto, unfolding(crate::specs::Calls::tail_call_statement))]
pub fn tail_call_statement(alloc: Global, input: &mut Input<'_>) -> Result<Instr, Fault>
    ensures { Reads (form.tail_call_statement.read input.old) result input.new }
{
    sees_call(input)?;
    call_statement(alloc, input)
}
