//! The text of items.
ghost use Rattle.std.specs.Prelude.{◌≡◌, ◌++◌, ◌∷◌, [], OnOk};
ghost use Rattle.std.specs.List.{flat_map};
ghost use Rattle.ir_print.specs.Blocks as block_spec;
ghost use Rattle.ir_print.specs.Items as spec;

use crate::choices::put_phis;
use crate::ends::put_end_line;
use crate::instructions::put_instructions;
use crate::names::{put_label, put_struct_name};
use crate::operands::put_constant;
use crate::parameters::{put_parameters, put_types};
use crate::types::put_type;
use ir_ast::{Block, Declare, Function, Global as Word, Module, Names, StructType};
use items::Items;
use name_text::{Blank, put_global, put_quoted};
use std::alloc::{AllocError, Global};

fn put_struct(
    alloc: Global,
    out: &mut Vec<u8>,
    module: &Module,
    struct_type: &StructType,
) -> Result<(), AllocError>
    ensures { OnOk result (out.new.items ≡ out.old.items ++ spec.struct_line «module».now struct_type.now) }
{
    put_struct_name(out, module, struct_type.name)?;
    out.extend_from_slice(b" = type ")?;
    put_type(alloc, out, module, struct_type.body)?;
    out.push(b'\n')?;
    Ok(())
}

/// The lines of struct types.
pub fn put_structs(
    alloc: Global,
    out: &mut Vec<u8>,
    module: &Module,
    structs: &[StructType],
) -> Result<(), AllocError>
    ensures { OnOk result (out.new.items ≡ out.old.items ++ flat_map (spec.struct_line «module».now) structs.now) }
{
    for struct_type in structs {
        put_struct(alloc, out, module, struct_type)?;
    }
    Ok(())
}

/// The word of a global.
fn global_word(is_constant: bool) -> &'static [u8]
    ensures { result.now ≡ spec.global_word is_constant }
{
    if is_constant {
        b" = constant "
    } else {
        b" = global "
    }
}

fn put_word(
    alloc: Global,
    out: &mut Vec<u8>,
    module: &Module,
    global: &Word,
) -> Result<(), AllocError>
    ensures { OnOk result (out.new.items ≡ out.old.items ++ spec.global_line «module».now global.now) }
{
    put_global(out, module, global.symbol, Blank::Kept)?;
    out.extend_from_slice(global_word(global.is_constant))?;
    put_type(alloc, out, module, global.held)?;
    out.push(b' ')?;
    put_constant(alloc, out, module, global.held, global.initial)?;
    out.push(b'\n')?;
    Ok(())
}

/// The lines of globals.
pub fn put_words(
    alloc: Global,
    out: &mut Vec<u8>,
    module: &Module,
    globals: &[Word],
) -> Result<(), AllocError>
    ensures { OnOk result (out.new.items ≡ out.old.items ++ flat_map (spec.global_line «module».now) globals.now) }
{
    for global in globals {
        put_word(alloc, out, module, global)?;
    }
    Ok(())
}

/// The line of a declared function.
pub fn put_declare(
    alloc: Global,
    out: &mut Vec<u8>,
    module: &Module,
    declared: &Declare,
) -> Result<(), AllocError>
    ensures { OnOk result (out.new.items ≡ out.old.items ++ spec.declare_line «module».now declared.now) }
{
    out.extend_from_slice(b"declare ")?;
    put_type(alloc, out, module, declared.returned)?;
    out.push(b' ')?;
    put_global(out, module, declared.symbol, Blank::Kept)?;
    out.push(b'(')?;
    put_types(alloc, out, module, declared.parameters.as_slice())?;
    out.extend_from_slice(b")\n")
}

/// The lines of declared functions.
pub fn put_declares(
    alloc: Global,
    out: &mut Vec<u8>,
    module: &Module,
    declares: &[Declare],
) -> Result<(), AllocError>
    ensures { OnOk result (out.new.items ≡ out.old.items ++ flat_map (spec.declare_line «module».now) declares.now) }
{
    for declared in declares {
        put_declare(alloc, out, module, declared)?;
    }
    Ok(())
}

fn put_block(
    alloc: Global,
    out: &mut Vec<u8>,
    module: &Module,
    locals: &Names,
    block: &Block,
) -> Result<(), AllocError>
    ensures { OnOk result (out.new.items ≡ out.old.items ++ block_spec.block_text «module».now locals.now block.now) }
{
    put_label(out, locals, block.label)?;
    out.extend_from_slice(b":\n")?;
    put_phis(alloc, out, module, locals, block.phis.as_slice())?;
    put_instructions(alloc, out, module, locals, block.body.as_slice())?;
    put_end_line(alloc, out, module, locals, &block.end)
}

fn put_blocks(
    alloc: Global,
    out: &mut Vec<u8>,
    module: &Module,
    locals: &Names,
    blocks: &[Block],
) -> Result<(), AllocError>
    ensures { OnOk result (out.new.items ≡ out.old.items ++ flat_map (block_spec.block_text «module».now locals.now) blocks.now) }
{
    for block in blocks {
        put_block(alloc, out, module, locals, block)?;
    }
    Ok(())
}

/// `gc "name"`, if the function has a collector, after a blank.
pub fn put_collector(out: &mut Vec<u8>, collector: &Option<Items<u8>>) -> Result<(), AllocError>
    ensures { OnOk result (out.new.items ≡ out.old.items ++ spec.collector_text collector.now) }
{
    match collector {
        None => Ok(()),
        Some(name) => {
            out.extend_from_slice(b" gc ")?;
            put_quoted(out, name.as_slice(), Blank::Kept)
        }
    }
}

/// `define T @f(T %a, ..) gc "name" {`, and the end of the line.
fn put_head(
    alloc: Global,
    out: &mut Vec<u8>,
    module: &Module,
    function: &Function,
) -> Result<(), AllocError>
    ensures { OnOk result (out.new.items ≡ out.old.items ++ spec.head_line «module».now function.now) }
{
    out.extend_from_slice(b"define ")?;
    put_type(alloc, out, module, function.returned)?;
    out.push(b' ')?;
    put_global(out, module, function.symbol, Blank::Kept)?;
    out.push(b'(')?;
    put_parameters(
        alloc,
        out,
        module,
        &function.locals,
        function.parameters.as_slice(),
    )?;
    out.push(b')')?;
    put_collector(out, &function.collector)?;
    out.extend_from_slice(b" {\n")
}

fn put_function(
    alloc: Global,
    out: &mut Vec<u8>,
    module: &Module,
    function: &Function,
) -> Result<(), AllocError>
    ensures { OnOk result (out.new.items ≡ out.old.items ++ spec.function_text «module».now function.now) }
{
    put_head(alloc, out, module, function)?;
    put_blocks(
        alloc,
        out,
        module,
        &function.locals,
        function.blocks.as_slice(),
    )?;
    out.extend_from_slice(b"}\n")
}

/// The texts of defined functions.
pub fn put_functions(
    alloc: Global,
    out: &mut Vec<u8>,
    module: &Module,
    functions: &[Function],
) -> Result<(), AllocError>
    ensures { OnOk result (out.new.items ≡ out.old.items ++ flat_map (spec.function_text «module».now) functions.now) }
{
    for function in functions {
        put_function(alloc, out, module, function)?;
    }
    Ok(())
}
