//! How items are lowered.
ghost use Rattle.std.specs.Prelude.{◌≡◌, ◌++◌, ◌∷◌, [], OnOk, slice_get};
ghost use Rattle.std.specs.List.{flat_map};
ghost use Rattle.lowering.specs.Items as spec;

use crate::ends::put_end;
use crate::instructions::put_body;
use crate::scope::Scope;
use crate::word_types::{bits_of, is_number, put_words};
use ir_ast::{
    Block, Constant, Declare, Function, Global as Word, Module, Names, Runtime, StructType, TypeId,
};
use ir_print::{
    put_collector, put_declare, put_label, put_parameters, put_phis, put_struct_name, put_type,
};
use machine::float_number;
use name_text::{Blank, put_global, put_number};
use shadow_stack::slots_of;
use std::alloc::{AllocError, Global};

fn put_struct(
    alloc: Global,
    out: &mut Vec<u8>,
    module: &Module,
    struct_type: &StructType,
) -> Result<(), AllocError>
    ensures { OnOk result (out.new.items ≡ out.old.items ++ spec.struct_line «module».now struct_type.now) }
{
    put_struct_name(out, module, struct_type.name)?;
    out.extend_from_slice(b" = type ")?;
    put_words(alloc, out, module, struct_type.body)?;
    out.push(b'\n')?;
    Ok(())
}

/// The lines of struct types.
pub(crate) fn put_structs(
    alloc: Global,
    out: &mut Vec<u8>,
    module: &Module,
    structs: &[StructType],
) -> Result<(), AllocError>
    ensures { OnOk result (out.new.items ≡ out.old.items ++ flat_map (spec.struct_line «module».now) structs.now) }
{
    for struct_type in structs {
        put_struct(alloc, out, module, struct_type)?;
    }
    Ok(())
}

/// The number that a word begins with, where what it holds has this number of bits.
fn first_number(bits: u32, constant: Constant) -> u64
    ensures { result ≡ spec.first_number bits constant }
{
    match constant {
        Constant::Number(number) => number,
        Constant::Float(number) => float_number(bits, number),
        Constant::Null => 0,
        Constant::Truth(truth) => { if truth { 1 } else { 0 } }
    }
}

/// What is before the number that a word begins with.
#[tactic(auto, unfolding(crate::specs::Items::integer_word))]
fn integer_word() -> &'static [u8]
    ensures { result.now ≡ spec.integer_word }
{
    b" = global i64 "
}

/// A global that begins with null.
#[tactic(auto, unfolding(crate::specs::Items::null_word))]
fn null_word() -> &'static [u8]
    ensures { result.now ≡ spec.null_word }
{
    b" = global ptr null"
}

/// How the line of a global ends.
#[tactic(auto, unfolding(crate::specs::Items::aligned_word))]
fn aligned_word() -> &'static [u8]
    ensures { result.now ≡ spec.aligned_word }
{
    b", align 8\n"
}

/// What a global begins with: a number of this number of bits as a word, or null.
fn put_word_by(
    alloc: Global,
    out: &mut Vec<u8>,
    is_number: bool,
    bits: u32,
    initial: Constant,
) -> Result<(), AllocError>
    ensures { OnOk result (out.new.items ≡ out.old.items ++ spec.word_by is_number bits initial) }
{
    if is_number {
        out.extend_from_slice(integer_word())?;
        put_number(alloc, out, first_number(bits, initial))
    } else {
        out.extend_from_slice(null_word())
    }
}

/// What a global begins with that holds this type.
#[tactic(auto, unfolding(crate::specs::Items::word_text))]
fn put_word(
    alloc: Global,
    out: &mut Vec<u8>,
    module: &Module,
    held: TypeId,
    initial: Constant,
) -> Result<(), AllocError>
    ensures { OnOk result (out.new.items ≡ out.old.items ++ spec.word_text (slice_get «module».now.types held) initial) }
{
    let numeric = is_number(module.types.get(held));
    let bits = bits_of(module.types.get(held));
    put_word_by(alloc, out, numeric, bits, initial)
}

fn put_global_line(
    alloc: Global,
    out: &mut Vec<u8>,
    module: &Module,
    global: &Word,
) -> Result<(), AllocError>
    ensures { OnOk result (out.new.items ≡ out.old.items ++ spec.global_line «module».now global.now) }
{
    put_global(out, module, global.symbol, Blank::Kept)?;
    put_word(alloc, out, module, global.held, global.initial)?;
    out.extend_from_slice(aligned_word())
}

/// The lines of globals.
pub(crate) fn put_globals(
    alloc: Global,
    out: &mut Vec<u8>,
    module: &Module,
    globals: &[Word],
) -> Result<(), AllocError>
    ensures { OnOk result (out.new.items ≡ out.old.items ++ flat_map (spec.global_line «module».now) globals.now) }
{
    for global in globals {
        put_global_line(alloc, out, module, global)?;
    }
    Ok(())
}

/// The line of a declared function, unless the runtime has it.
fn put_foreign(
    alloc: Global,
    out: &mut Vec<u8>,
    module: &Module,
    declared: &Declare,
) -> Result<(), AllocError>
    ensures { OnOk result (out.new.items ≡ out.old.items ++ spec.declared_line «module».now declared.now) }
{
    match declared.runtime {
        None | Some(Runtime::Integer { .. } | Runtime::Float { .. }) => {
            put_declare(alloc, out, module, declared)
        }
        Some(_) => Ok(()),
    }
}

/// The lines of declared functions that the runtime does not have.
pub(crate) fn put_declares(
    alloc: Global,
    out: &mut Vec<u8>,
    module: &Module,
    declares: &[Declare],
) -> Result<(), AllocError>
    ensures { OnOk result (out.new.items ≡ out.old.items ++ flat_map (spec.declared_line «module».now) declares.now) }
{
    for declared in declares {
        put_foreign(alloc, out, module, declared)?;
    }
    Ok(())
}

/// `T @f(T %a, ..`.
fn put_signature(
    alloc: Global,
    out: &mut Vec<u8>,
    module: &Module,
    function: &Function,
) -> Result<(), AllocError>
    ensures { OnOk result (out.new.items ≡ out.old.items ++ spec.signature_text «module».now function.now) }
{
    put_type(alloc, out, module, function.returned)?;
    out.push(b' ')?;
    put_global(out, module, function.symbol, Blank::Kept)?;
    out.push(b'(')?;
    put_parameters(
        alloc,
        out,
        module,
        &function.locals,
        function.parameters.as_slice(),
    )
}

/// The line of a function's head.
fn put_head(
    alloc: Global,
    out: &mut Vec<u8>,
    module: &Module,
    function: &Function,
) -> Result<(), AllocError>
    ensures { OnOk result (out.new.items ≡ out.old.items ++ spec.head_line «module».now function.now) }
{
    out.extend_from_slice(b"define ")?;
    put_signature(alloc, out, module, function)?;
    out.extend_from_slice(b") nounwind \"no-builtins\"")?;
    put_collector(out, &function.collector)?;
    out.extend_from_slice(b" {\n")
}

/// The line of a label.
fn put_label_line(out: &mut Vec<u8>, locals: &Names, block: &Block) -> Result<(), AllocError>
    ensures { OnOk result (out.new.items ≡ out.old.items ++ spec.label_line locals.now block.now) }
{
    put_label(out, locals, block.label)?;
    out.extend_from_slice(b":\n")
}

fn put_block(
    alloc: Global,
    out: &mut Vec<u8>,
    scope: &Scope,
    block: &Block,
) -> Result<(), AllocError>
    ensures { OnOk result (out.new.items ≡ out.old.items ++ spec.block_text scope.now.recorded scope.now.of_module.now scope.now.locals.now scope.now.slots.now block.now) }
{
    put_label_line(out, scope.locals, block)?;
    put_phis(
        alloc,
        out,
        scope.of_module,
        scope.locals,
        block.phis.as_slice(),
    )?;
    put_body(alloc, out, scope, block.label, block.body.as_slice())?;
    put_end(alloc, out, scope, &block.end)
}

fn put_blocks(
    alloc: Global,
    out: &mut Vec<u8>,
    scope: &Scope,
    blocks: &[Block],
) -> Result<(), AllocError>
    ensures { OnOk result (out.new.items ≡ out.old.items ++ flat_map (spec.block_text scope.now.recorded scope.now.of_module.now scope.now.locals.now scope.now.slots.now) blocks.now) }
{
    for block in blocks {
        put_block(alloc, out, scope, block)?;
    }
    Ok(())
}

/// The blocks of a function.
fn put_body_of(
    alloc: Global,
    out: &mut Vec<u8>,
    module: &Module,
    function: &Function,
    recorded: bool,
) -> Result<(), AllocError>
    ensures { OnOk result (out.new.items ≡ out.old.items ++ spec.blocks_text recorded «module».now function.now) }
{
    let slots = slots_of(alloc, module, function)?;
    let scope = Scope {
        of_module: module,
        locals: &function.locals,
        slots: &slots,
        recorded,
    };
    let printed = put_blocks(alloc, out, &scope, function.blocks.as_slice());
    drop(slots);
    printed
}

#[tactic(auto, unfolding(crate::specs::Items::function_text))]
fn put_function(
    alloc: Global,
    out: &mut Vec<u8>,
    module: &Module,
    function: &Function,
    recorded: bool,
) -> Result<(), AllocError>
    ensures { OnOk result (out.new.items ≡ out.old.items ++ spec.function_text recorded «module».now function.now) }
{
    put_head(alloc, out, module, function)?;
    put_body_of(alloc, out, module, function, recorded)?;
    out.extend_from_slice(b"}\n")
}

/// The texts of defined functions.
pub(crate) fn put_functions(
    alloc: Global,
    out: &mut Vec<u8>,
    module: &Module,
    functions: &[Function],
    recorded: bool,
) -> Result<(), AllocError>
    ensures { OnOk result (out.new.items ≡ out.old.items ++ flat_map (spec.function_text recorded «module».now) functions.now) }
{
    for function in functions {
        put_function(alloc, out, module, function, recorded)?;
    }
    Ok(())
}
