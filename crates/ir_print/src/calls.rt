//! The text of calls.
ghost use Rattle.std.specs.Prelude.{◌≡◌, ◌++◌, ◌∷◌, [], OnOk, codes};
ghost use Rattle.std.specs.List.{flat_map};
ghost use Rattle.ir_print.specs.Operands.{argument_text, listed};
ghost use Rattle.ir_print.specs.Calls as spec;

use crate::operands::put_argument;
use crate::types::put_type;
use ir_ast::{Argument, Call, Module, Names};
use name_text::{Blank, put_global};
use std::alloc::{AllocError, Global};

fn put_further_arguments(
    alloc: Global,
    out: &mut Vec<u8>,
    module: &Module,
    locals: &Names,
    arguments: &[Argument],
) -> Result<(), AllocError>
    ensures { OnOk result (out.new.items ≡ out.old.items ++ flat_map (λ argument. codes ", " ++ argument_text «module».now locals.now argument) arguments.now) }
{
    for argument in arguments {
        out.extend_from_slice(b", ")?;
        put_argument(alloc, out, module, locals, argument)?;
    }
    Ok(())
}

/// The arguments of a call.
fn put_arguments(
    alloc: Global,
    out: &mut Vec<u8>,
    module: &Module,
    locals: &Names,
    arguments: &[Argument],
) -> Result<(), AllocError>
    ensures { OnOk result (out.new.items ≡ out.old.items ++ listed (argument_text «module».now locals.now) arguments.now) }
{
    match arguments {
        [] => Ok(()),
        [first, rest @ ..] => {
            put_argument(alloc, out, module, locals, first)?;
            put_further_arguments(alloc, out, module, locals, rest)
        }
    }
}

/// A call.
pub fn put_call(
    alloc: Global,
    out: &mut Vec<u8>,
    module: &Module,
    locals: &Names,
    call: &Call,
) -> Result<(), AllocError>
    ensures { OnOk result (out.new.items ≡ out.old.items ++ spec.call_text «module».now locals.now call.now) }
{
    out.extend_from_slice(b"call ")?;
    put_type(alloc, out, module, call.returned)?;
    out.push(b' ')?;
    put_global(out, module, call.callee, Blank::Kept)?;
    out.push(b'(')?;
    put_arguments(alloc, out, module, locals, call.arguments.as_slice())?;
    out.push(b')')?;
    Ok(())
}
