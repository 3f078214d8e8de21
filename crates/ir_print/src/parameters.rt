//! The text of parameters, and of the types of parameters.
ghost use Rattle.std.specs.Prelude.{◌≡◌, ◌++◌, ◌∷◌, [], OnOk, codes};
ghost use Rattle.std.specs.List.{flat_map};
ghost use Rattle.ir_print.specs.Operands as spec;
ghost use Rattle.ir_print.specs.Items as item;
ghost use Rattle.ir_print.specs.Types.{type_text};

use crate::types::put_type;
use ir_ast::{Module, Names, Parameter, TypeId};
use name_text::{Blank, put_local};
use std::alloc::{AllocError, Global};

/// `T %a`.
fn put_parameter(
    alloc: Global,
    out: &mut Vec<u8>,
    module: &Module,
    locals: &Names,
    parameter: &Parameter,
) -> Result<(), AllocError>
    ensures { OnOk result (out.new.items ≡ out.old.items ++ item.parameter_text «module».now locals.now parameter.now) }
{
    put_type(alloc, out, module, parameter.written)?;
    out.push(b' ')?;
    put_local(out, locals, parameter.value, Blank::Kept)
}

fn put_further_parameters(
    alloc: Global,
    out: &mut Vec<u8>,
    module: &Module,
    locals: &Names,
    parameters: &[Parameter],
) -> Result<(), AllocError>
    ensures { OnOk result (out.new.items ≡ out.old.items ++ flat_map (λ parameter. codes ", " ++ item.parameter_text «module».now locals.now parameter) parameters.now) }
{
    for parameter in parameters {
        out.extend_from_slice(b", ")?;
        put_parameter(alloc, out, module, locals, parameter)?;
    }
    Ok(())
}

/// The parameters of a defined function.
pub fn put_parameters(
    alloc: Global,
    out: &mut Vec<u8>,
    module: &Module,
    locals: &Names,
    parameters: &[Parameter],
) -> Result<(), AllocError>
    ensures { OnOk result (out.new.items ≡ out.old.items ++ spec.listed (item.parameter_text «module».now locals.now) parameters.now) }
{
    match parameters {
        [] => Ok(()),
        [first, rest @ ..] => {
            put_parameter(alloc, out, module, locals, first)?;
            put_further_parameters(alloc, out, module, locals, rest)
        }
    }
}

fn put_further_types(
    alloc: Global,
    out: &mut Vec<u8>,
    module: &Module,
    types: &[TypeId],
) -> Result<(), AllocError>
    ensures { OnOk result (out.new.items ≡ out.old.items ++ flat_map (λ written. codes ", " ++ type_text «module».now written) types.now) }
{
    for written in types {
        out.extend_from_slice(b", ")?;
        put_type(alloc, out, module, *written)?;
    }
    Ok(())
}

/// The types of the parameters of a declared function.
pub fn put_types(
    alloc: Global,
    out: &mut Vec<u8>,
    module: &Module,
    types: &[TypeId],
) -> Result<(), AllocError>
    ensures { OnOk result (out.new.items ≡ out.old.items ++ spec.listed (type_text «module».now) types.now) }
{
    match types {
        [] => Ok(()),
        [first, rest @ ..] => {
            put_type(alloc, out, module, *first)?;
            put_further_types(alloc, out, module, rest)
        }
    }
}
