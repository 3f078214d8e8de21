//! The functions at which a thread may begin.
ghost use Rattle.std.specs.Prelude.{◌≡◌, ◌++◌, ◌∷◌, [], OnOk, filter, length, slice_get};
ghost use Rattle.lowering.specs.Rows.{numbered};
ghost use Rattle.lowering.specs.Starts as spec;

use crate::rows::before_row;
use crate::strings::put_name_string;
use crate::tables::put_counted;
use crate::word_types::is_number;
use crate::words::{from_word, is_halved, to_word};
use ir_ast::{Function, IrType, Module, Parameter, TypeId};
use ir_print::put_type;
use name_text::{Blank, put_global, put_number};
use std::alloc::{AllocError, Global};

fn is_number_parameter(module: &Module, parameter: &Parameter) -> bool
    ensures { result ≡ spec.is_number_parameter «module».now parameter.now }
{
    is_number(module.types.get(parameter.written))
}

/// Whether a thread may begin at a function.
fn is_start(module: &Module, function: &Function) -> bool
    ensures { result ≡ spec.is_start «module».now function.now }
{
    function
        .parameters
        .as_slice()
        .iter()
        .all(|parameter| is_number_parameter(module, parameter))
}

/// How many of these functions are starts.
pub(crate) fn count_starts(module: &Module, functions: &[Function]) -> usize
    ensures { result ≡ length (filter (spec.is_start «module».now) functions.now) }
{
    let mut count = 0;
    for function in functions {
        if is_start(module, function) {
            count += 1;
        }
    }
    count
}

/// The head of the function by which the start at this place is called.
#[tactic(auto, unfolding(crate::specs::Starts::caller_head))]
fn put_caller_head(alloc: Global, out: &mut Vec<u8>, place: usize) -> Result<(), AllocError>
    ensures { OnOk result (out.new.items ≡ out.old.items ++ spec.caller_head place) }
{
    put_counted(
        alloc,
        out,
        b"define private i64 @dg.start.",
        place,
        b"(ptr %a) nounwind \"no-builtins\" {\n",
    )
}

/// The lines that read the word at this place of the array.
#[tactic(auto, unfolding(crate::specs::Starts::argument_word))]
fn put_argument_word(alloc: Global, out: &mut Vec<u8>, place: usize) -> Result<(), AllocError>
    ensures { OnOk result (out.new.items ≡ out.old.items ++ spec.argument_word place) }
{
    out.extend_from_slice(b"  %p")?;
    put_number(alloc, out, place as u64)?;
    out.extend_from_slice(b" = getelementptr i64, ptr %a, i64 ")?;
    put_number(alloc, out, place as u64)?;
    out.extend_from_slice(b"\n  %w")?;
    put_number(alloc, out, place as u64)?;
    out.extend_from_slice(b" = load i64, ptr %p")?;
    put_number(alloc, out, place as u64)?;
    out.push(b'\n')?;
    Ok(())
}

/// The line that makes the lower half of that word.
fn put_argument_half(alloc: Global, out: &mut Vec<u8>, place: usize) -> Result<(), AllocError>
    ensures { OnOk result (out.new.items ≡ out.old.items ++ spec.argument_half place) }
{
    out.extend_from_slice(b"  %h")?;
    put_number(alloc, out, place as u64)?;
    out.extend_from_slice(b" = trunc i64 %w")?;
    put_number(alloc, out, place as u64)?;
    out.extend_from_slice(b" to i32\n")
}

/// The same, where there is need of it.
fn put_half_by(
    alloc: Global,
    out: &mut Vec<u8>,
    halved: bool,
    place: usize,
) -> Result<(), AllocError>
    ensures { OnOk result (out.new.items ≡ out.old.items ++ spec.half_by halved place) }
{
    if halved {
        put_argument_half(alloc, out, place)
    } else {
        Ok(())
    }
}

/// How the name of the word begins, or of its lower half.
fn part_begin(halved: bool) -> &'static [u8]
    ensures { result.now ≡ spec.part_begin halved }
{
    if halved { b"%h" } else { b"%w" }
}

/// The line that makes an argument of this type of that word, or of its lower half.
#[tactic(auto, unfolding(crate::specs::Starts::argument_line))]
fn put_argument_line(
    alloc: Global,
    out: &mut Vec<u8>,
    module: &Module,
    place: usize,
    written: TypeId,
) -> Result<(), AllocError>
    ensures { OnOk result (out.new.items ≡ out.old.items ++ spec.argument_line «module».now place written) }
{
    out.extend_from_slice(b"  %x")?;
    put_number(alloc, out, place as u64)?;
    out.extend_from_slice(b" = ")?;
    out.extend_from_slice(from_word(module.types.get(written)))?;
    let halved = is_halved(module.types.get(written));
    out.extend_from_slice(part_begin(halved))?;
    put_number(alloc, out, place as u64)?;
    out.extend_from_slice(b" to ")?;
    put_type(alloc, out, module, written)?;
    out.push(b'\n')?;
    Ok(())
}

/// The lines that read the argument for the parameter at this place.
fn put_argument_lines(
    alloc: Global,
    out: &mut Vec<u8>,
    module: &Module,
    place: usize,
    parameter: &Parameter,
) -> Result<(), AllocError>
    ensures { OnOk result (out.new.items ≡ out.old.items ++ spec.argument_lines «module».now place parameter.now) }
{
    put_argument_word(alloc, out, place)?;
    let halved = is_halved(module.types.get(parameter.written));
    put_half_by(alloc, out, halved, place)?;
    put_argument_line(alloc, out, module, place, parameter.written)
}

/// The lines that read the arguments.
fn put_arguments(
    alloc: Global,
    out: &mut Vec<u8>,
    module: &Module,
    parameters: &[Parameter],
) -> Result<(), AllocError>
    ensures { OnOk result (out.new.items ≡ out.old.items ++ numbered (spec.argument_lines «module».now) 0 parameters.now) }
{
    let mut place = 0;
    for parameter in parameters {
        put_argument_lines(alloc, out, module, place, parameter)?;
        place += 1;
    }
    Ok(())
}

/// An argument in the call, after what stands before it.
fn put_given_at(
    alloc: Global,
    out: &mut Vec<u8>,
    module: &Module,
    place: usize,
    parameter: &Parameter,
) -> Result<(), AllocError>
    ensures { OnOk result (out.new.items ≡ out.old.items ++ spec.given_text «module».now place parameter.now) }
{
    out.extend_from_slice(before_row(place))?;
    put_type(alloc, out, module, parameter.written)?;
    out.extend_from_slice(b" %x")?;
    put_number(alloc, out, place as u64)
}

fn put_given(
    alloc: Global,
    out: &mut Vec<u8>,
    module: &Module,
    parameters: &[Parameter],
) -> Result<(), AllocError>
    ensures { OnOk result (out.new.items ≡ out.old.items ++ numbered (spec.given_text «module».now) 0 parameters.now) }
{
    let mut place = 0;
    for parameter in parameters {
        put_given_at(alloc, out, module, place, parameter)?;
        place += 1;
    }
    Ok(())
}

/// The call of a start, and the end of its line.
#[tactic(auto, unfolding(crate::specs::Starts::start_call))]
fn put_start_call(
    alloc: Global,
    out: &mut Vec<u8>,
    module: &Module,
    function: &Function,
) -> Result<(), AllocError>
    ensures { OnOk result (out.new.items ≡ out.old.items ++ spec.start_call «module».now function.now) }
{
    out.extend_from_slice(b"call ")?;
    put_type(alloc, out, module, function.returned)?;
    out.push(b' ')?;
    put_global(out, module, function.symbol, Blank::Kept)?;
    out.push(b'(')?;
    put_given(alloc, out, module, function.parameters.as_slice())?;
    out.extend_from_slice(b")\n")
}

/// How the line begins that makes a word of the value of a call, or its lower half.
fn word_begin(halved: bool) -> &'static [u8]
    ensures { result.now ≡ spec.word_begin halved }
{
    if halved { b"  %h = " } else { b"  %w = " }
}

/// How it ends, and the lines after it.
fn word_end(halved: bool) -> &'static [u8]
    ensures { result.now ≡ spec.word_end halved }
{
    if halved {
        b" %r to i32\n  %w = zext i32 %h to i64\n  ret i64 %w\n"
    } else {
        b" %r to i64\n  ret i64 %w\n"
    }
}

/// The lines that return the value of a call as a word.
#[tactic(auto, unfolding(crate::specs::Starts::word_lines))]
fn put_word_lines(
    alloc: Global,
    out: &mut Vec<u8>,
    module: &Module,
    returned: TypeId,
) -> Result<(), AllocError>
    ensures { OnOk result (out.new.items ≡ out.old.items ++ spec.word_lines «module».now returned) }
{
    let halved = is_halved(module.types.get(returned));
    out.extend_from_slice(word_begin(halved))?;
    out.extend_from_slice(to_word(module.types.get(returned)))?;
    put_type(alloc, out, module, returned)?;
    out.extend_from_slice(word_end(halved))
}

/// The call of a start, and the word that is returned for it.
fn put_result(
    alloc: Global,
    out: &mut Vec<u8>,
    module: &Module,
    function: &Function,
) -> Result<(), AllocError>
    ensures { OnOk result (out.new.items ≡ out.old.items ++ spec.result_lines «module».now function.now) }
{
    match module.types.get(function.returned) {
        Some(IrType::Void) => {
            out.extend_from_slice(b"  ")?;
            put_start_call(alloc, out, module, function)?;
            out.extend_from_slice(b"  ret i64 0\n")
        }
        _ => {
            out.extend_from_slice(b"  %r = ")?;
            put_start_call(alloc, out, module, function)?;
            put_word_lines(alloc, out, module, function.returned)
        }
    }
}

/// The function by which the start at this place is called.
#[tactic(auto, unfolding(crate::specs::Starts::caller_text))]
fn put_caller(
    alloc: Global,
    out: &mut Vec<u8>,
    module: &Module,
    place: usize,
    function: &Function,
) -> Result<(), AllocError>
    ensures { OnOk result (out.new.items ≡ out.old.items ++ spec.caller_text «module».now place function.now) }
{
    put_caller_head(alloc, out, place)?;
    put_arguments(alloc, out, module, function.parameters.as_slice())?;
    put_result(alloc, out, module, function)?;
    out.extend_from_slice(b"}\n")
}

/// The constant that the name of a start is.
#[tactic(auto, unfolding(crate::specs::Starts::start_label))]
fn put_start_label(alloc: Global, out: &mut Vec<u8>, place: usize) -> Result<(), AllocError>
    ensures { OnOk result (out.new.items ≡ out.old.items ++ spec.start_label place) }
{
    out.extend_from_slice(b"@dg.start.name.")?;
    put_number(alloc, out, place as u64)
}

/// The name of a start, and the function by which it is called.
fn put_start(
    alloc: Global,
    out: &mut Vec<u8>,
    module: &Module,
    place: usize,
    function: &Function,
) -> Result<(), AllocError>
    ensures { OnOk result (out.new.items ≡ out.old.items ++ spec.start_text «module».now place function.now) }
{
    put_start_label(alloc, out, place)?;
    put_name_string(
        alloc,
        out,
        module.symbols.name_at(function.symbol.number() as usize),
    )?;
    put_caller(alloc, out, module, place, function)
}

fn put_starts(
    alloc: Global,
    out: &mut Vec<u8>,
    module: &Module,
    functions: &[Function],
) -> Result<(), AllocError>
    ensures { OnOk result (out.new.items ≡ out.old.items ++ numbered (spec.start_text «module».now) 0 (filter (spec.is_start «module».now) functions.now)) }
{
    let mut place = 0;
    for function in functions {
        if is_start(module, function) {
            put_start(alloc, out, module, place, function)?;
            place += 1;
        }
    }
    Ok(())
}

/// How a row begins.
#[tactic(auto, unfolding(crate::specs::Starts::start_names))]
fn put_start_names(alloc: Global, out: &mut Vec<u8>, place: usize) -> Result<(), AllocError>
    ensures { OnOk result (out.new.items ≡ out.old.items ++ spec.start_names place) }
{
    out.extend_from_slice(b"{ ptr, ptr, i64, i64 } { ptr ")?;
    put_start_label(alloc, out, place)?;
    out.extend_from_slice(b", ptr @dg.start.")?;
    put_number(alloc, out, place as u64)
}

/// How a row ends.
fn result_mark(shown: Option<IrType>) -> &'static [u8]
    ensures { result.now ≡ spec.result_mark shown }
{
    match &shown {
        Some(IrType::Void) => b", i64 0 }",
        Some(IrType::Integer(_) | IrType::Float | IrType::Double) => b", i64 1 }",
        _ => b", i64 2 }",
    }
}

/// The row of a start, after what stands before it.
fn put_start_at(
    alloc: Global,
    out: &mut Vec<u8>,
    module: &Module,
    place: usize,
    function: &Function,
) -> Result<(), AllocError>
    ensures { OnOk result (out.new.items ≡ out.old.items ++ spec.start_row_at «module».now place function.now) }
{
    out.extend_from_slice(before_row(place))?;
    put_start_names(alloc, out, place)?;
    out.extend_from_slice(b", i64 ")?;
    put_number(alloc, out, function.parameters.len() as u64)?;
    out.extend_from_slice(result_mark(module.types.get(function.returned)))
}

fn put_start_rows(
    alloc: Global,
    out: &mut Vec<u8>,
    module: &Module,
    functions: &[Function],
) -> Result<(), AllocError>
    ensures { OnOk result (out.new.items ≡ out.old.items ++ numbered (spec.start_row_at «module».now) 0 (filter (spec.is_start «module».now) functions.now)) }
{
    let mut place = 0;
    for function in functions {
        if is_start(module, function) {
            put_start_at(alloc, out, module, place, function)?;
            place += 1;
        }
    }
    Ok(())
}

/// How many starts there are.
#[tactic(auto, unfolding(crate::specs::Starts::start_count))]
pub(crate) fn put_start_count(
    alloc: Global,
    out: &mut Vec<u8>,
    count: usize,
) -> Result<(), AllocError>
    ensures { OnOk result (out.new.items ≡ out.old.items ++ spec.start_count count) }
{
    put_counted(alloc, out, b"@dg_start_count = constant i64 ", count, b"\n")
}

/// How the table of starts begins.
#[tactic(auto, unfolding(crate::specs::Starts::start_begin))]
fn put_start_begin(alloc: Global, out: &mut Vec<u8>, count: usize) -> Result<(), AllocError>
    ensures { OnOk result (out.new.items ≡ out.old.items ++ spec.start_begin count) }
{
    put_counted(
        alloc,
        out,
        b"@dg_starts = constant [",
        count,
        b" x { ptr, ptr, i64, i64 }] [",
    )
}

/// The starts of a module, and their table.
#[tactic(auto, unfolding(crate::specs::Starts::start_table))]
pub(crate) fn put_start_table(
    alloc: Global,
    out: &mut Vec<u8>,
    module: &Module,
) -> Result<(), AllocError>
    ensures { OnOk result (out.new.items ≡ out.old.items ++ spec.start_table «module».now) }
{
    let functions = module.functions.as_slice();
    put_starts(alloc, out, module, functions)?;
    put_start_begin(alloc, out, count_starts(module, functions))?;
    put_start_rows(alloc, out, module, functions)?;
    out.extend_from_slice(b"]\n")
}
