//! Parameters of declared and of defined functions.
ghost use Rattle.std.specs.Prelude.{◌≡◌};
ghost use Rattle.ir_forms.specs.Input.{Reads};
ghost use Rattle.ir_text.specs.Parameters as form;

use ir_ast::{Parameter, TypeId, ValueId};
use ir_forms::{
    Fault, Input, Listed, Spot, WrittenType, decorations, dots, ends_parameters, many, separator,
};
use ir_tokens::Kind;
use items::Items;
use std::alloc::Global;

/// The name of a parameter that is declared.
#[tactic(auto, unfolding(crate::specs::Parameters::declared_name))]
fn declared_name(alloc: Global, input: &mut Input<'_>) -> Result<(), Fault>
    ensures { Reads (form.declared_name.read input.old) result input.new }
{
    match input.kind() {
        Kind::LocalName => {
            input.skip();
            Ok(())
        }
        Kind::LocalNumber => {
            input.next_number(alloc)?;
            input.skip();
            Ok(())
        }
        _ => input.take_number(),
    }
}

/// The type of a parameter of a declared function, whose name is ignored.
#[tactic(auto, unfolding(crate::specs::Parameters::declared_parameter))]
fn declared_parameter(alloc: Global, input: &mut Input<'_>) -> Result<TypeId, Fault>
    ensures { Reads (form.declared_parameter.read input.old) result input.new }
{
    let written = input.any_type(alloc)?;
    decorations(alloc, input, Spot::Parameter)?;
    declared_name(alloc, input)?;
    separator(input, Kind::CloseRound)?;
    Ok(written.id)
}

/// The types of the parameters of a declared function.
struct DeclaredParameters;

impl Listed for DeclaredParameters {
    ghost use Rattle.ir_forms.specs.Lists.{ends_parameters};
    ghost use Rattle.ir_text.specs.Parameters.{declared_parameter};

    type Item = TypeId;

    ghost form = { declared_parameter.read };

    ghost ends = { ends_parameters };

    fn ends(input: &Input<'_>) -> bool {
        ends_parameters(input)
    }

    fn read(alloc: Global, input: &mut Input<'_>) -> Result<TypeId, Fault> {
        declared_parameter(alloc, input)
    }
}

/// The types of the parameters of a declared function, before its dots if it has any.
#[tactic(auto, unfolding(crate::specs::Parameters::declared_parameters))]
pub fn declared_parameters(alloc: Global, input: &mut Input<'_>) -> Result<Items<TypeId>, Fault>
    ensures { Reads (form.declared_parameters.read input.old) result input.new }
{
    let types = many::<DeclaredParameters>(alloc, input)?;
    dots(input);
    Ok(types)
}

/// The type of a parameter.
#[tactic(auto, unfolding(crate::specs::Parameters::parameter_type))]
fn parameter_type(alloc: Global, input: &mut Input<'_>) -> Result<WrittenType, Fault>
    ensures { Reads (form.parameter_type.read input.old) result input.new }
{
    match input.kind() {
        Kind::Void => Err(input.left_out()),
        _ => input.passed_type(alloc),
    }
}

/// The name of a parameter, or its number, which may be left out.
#[tactic(auto, unfolding(crate::specs::Parameters::parameter_name))]
fn parameter_name(alloc: Global, input: &mut Input<'_>) -> Result<ValueId, Fault>
    ensures { Reads (form.parameter_name.read input.old) result input.new }
{
    match input.kind() {
        Kind::LocalName => input.new_value(alloc),
        Kind::LocalNumber => input.numbered_value(alloc),
        Kind::Comma | Kind::CloseRound => input.unnamed_value(alloc),
        _ => Err(input.refuse(false)),
    }
}

/// A parameter of a defined function.
#[tactic(auto, unfolding(crate::specs::Parameters::parameter))]
fn parameter(alloc: Global, input: &mut Input<'_>) -> Result<Parameter, Fault>
    ensures { Reads (form.parameter.read input.old) result input.new }
{
    let written = parameter_type(alloc, input)?.id;
    decorations(alloc, input, Spot::Parameter)?;
    let value = parameter_name(alloc, input)?;
    input.set_type(value, written);
    separator(input, Kind::CloseRound)?;
    Ok(Parameter { written, value })
}

/// The parameters of a defined function.
pub struct DefinedParameters;

impl Listed for DefinedParameters {
    ghost use Rattle.ir_forms.specs.Lists.{at_round};
    ghost use Rattle.ir_text.specs.Parameters.{parameter};

    type Item = Parameter;

    ghost form = { parameter.read };

    ghost ends = { at_round };

    fn ends(input: &Input<'_>) -> bool {
        input.sees(Kind::CloseRound)
    }

    fn read(alloc: Global, input: &mut Input<'_>) -> Result<Parameter, Fault> {
        parameter(alloc, input)
    }
}
