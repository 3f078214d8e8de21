//! The text of certificates.
ghost use Rattle.std.specs.Prelude.{◌≡◌, ◌++◌, OnOk, IfOk, drop};
ghost use Rattle.std.specs.Option.{option_copied};
ghost use Rattle.certificate.specs.Print as spec;

use crate::print::{put_below, put_claim, put_if};
use crate::print_foreign::put_foreign;
use crate::print_numbers::put_numbers;
use crate::print_shapes::put_shapes;
use certs::{Certs, Claim, Mark, Promise, Section};
use ir_ast::{Block, Function, Module, Outside, Parameter, Shapes};
use items::Items;
use name_text::{Blank, put_global, put_layout, put_local};
use pools::LayoutId;
use std::alloc::{AllocError, Global};

fn put_promised_layout(
    out: &mut Vec<u8>,
    module: &Module,
    layout: Option<LayoutId>,
) -> Result<(), AllocError>
    ensures { OnOk result (out.new.items ≡ out.old.items ++ spec.promised_layout «module».now layout) }
{
    match layout {
        None => Ok(()),
        Some(layout) => {
            out.extend_from_slice(b" ref ")?;
            put_layout(out, module, layout, Blank::Kept)
        }
    }
}

/// What is promised, and the line's end.
fn put_promise(
    alloc: Global,
    out: &mut Vec<u8>,
    module: &Module,
    promise: &Promise,
) -> Result<(), AllocError>
    ensures { OnOk result (out.new.items ≡ out.old.items ++ spec.promise_text «module».now promise.now) }
{
    put_if(out, promise.number, b" i64")?;
    put_promised_layout(out, module, promise.layout)?;
    put_if(out, promise.nonnull, b" nonnull")?;
    put_below(alloc, out, promise.below)?;
    out.extend_from_slice(b"\n")
}

fn put_parameter(
    alloc: Global,
    out: &mut Vec<u8>,
    module: &Module,
    function: &Function,
    parameter: &Parameter,
    promise: &Option<Promise>,
) -> Result<(), AllocError>
    ensures { OnOk result (out.new.items ≡ out.old.items ++ spec.parameter_text «module».now function.now parameter.now promise.now) }
{
    match promise {
        None => Ok(()),
        Some(promise) => {
            out.extend_from_slice(b"param ")?;
            put_local(out, &function.locals, parameter.value, Blank::Kept)?;
            put_promise(alloc, out, module, promise)
        }
    }
}

fn put_parameters(
    alloc: Global,
    out: &mut Vec<u8>,
    module: &Module,
    function: &Function,
    parameters: &[Parameter],
    promises: &[Option<Promise>],
) -> Result<(), AllocError>
    ensures { OnOk result (out.new.items ≡ out.old.items ++ spec.parameters_text «module».now function.now parameters.now promises.now) }
{
    for (parameter, promise) in parameters.iter().zip(promises) {
        put_parameter(alloc, out, module, function, parameter, promise)?;
    }
    Ok(())
}

fn put_result(
    alloc: Global,
    out: &mut Vec<u8>,
    module: &Module,
    promise: &Option<Promise>,
) -> Result<(), AllocError>
    ensures { OnOk result (out.new.items ≡ out.old.items ++ spec.result_text «module».now promise.now) }
{
    match promise {
        None => Ok(()),
        Some(promise) => {
            out.extend_from_slice(b"result")?;
            put_promise(alloc, out, module, promise)
        }
    }
}

fn put_claims(
    alloc: Global,
    out: &mut Vec<u8>,
    module: &Module,
    function: &Function,
    lines: &[Claim],
) -> Result<(), AllocError>
    ensures { OnOk result (out.new.items ≡ out.old.items ++ spec.claims_text «module».now function.now lines.now) }
{
    for line in lines {
        put_claim(alloc, out, module, function, line)?;
        out.push(b'\n')?;
    }
    Ok(())
}

fn put_block(
    alloc: Global,
    out: &mut Vec<u8>,
    module: &Module,
    function: &Function,
    block: &Block,
    lines: &[Claim],
) -> Result<(), AllocError>
    ensures { OnOk result (out.new.items ≡ out.old.items ++ spec.block_text «module».now function.now block.now lines.now) }
{
    out.extend_from_slice(b"block ")?;
    put_local(out, &function.locals, block.label, Blank::Kept)?;
    out.push(b'\n')?;
    put_claims(alloc, out, module, function, lines)
}

fn put_blocks(
    alloc: Global,
    out: &mut Vec<u8>,
    module: &Module,
    function: &Function,
    blocks: &[Block],
    lists: &[Items<Claim>],
) -> Result<(), AllocError>
    ensures { OnOk result (out.new.items ≡ out.old.items ++ spec.blocks_text «module».now function.now blocks.now lists.now) }
{
    for (block, lines) in blocks.iter().zip(lists) {
        put_block(alloc, out, module, function, block, lines.as_slice())?;
    }
    Ok(())
}

/// The first line of a section.
fn put_heading(
    out: &mut Vec<u8>,
    module: &Module,
    function: &Function,
    mark: Mark,
) -> Result<(), AllocError>
    ensures { OnOk result (out.new.items ≡ out.old.items ++ spec.heading_text «module».now function.now mark) }
{
    out.extend_from_slice(b"function ")?;
    put_global(out, module, function.symbol, Blank::Kept)?;
    match mark {
        Mark::May => out.extend_from_slice(b" may\n"),
        Mark::None => out.extend_from_slice(b" none\n"),
    }
}

/// The blocks but the entry, which has no claims.
fn put_other_blocks(
    alloc: Global,
    out: &mut Vec<u8>,
    module: &Module,
    function: &Function,
    lists: &[Items<Claim>],
) -> Result<(), AllocError>
    ensures { OnOk result (out.new.items ≡ out.old.items ++ spec.blocks_text «module».now function.now (drop 1 function.now.blocks) (drop 1 lists.now)) }
{
    let blocks = function.blocks.as_slice().get(1..).unwrap_or(&[]);
    let lists = lists.get(1..).unwrap_or(&[]);
    put_blocks(alloc, out, module, function, blocks, lists)
}

fn put_section(
    alloc: Global,
    out: &mut Vec<u8>,
    module: &Module,
    function: &Function,
    section: &Section,
) -> Result<(), AllocError>
    ensures { OnOk result (out.new.items ≡ out.old.items ++ spec.section_text «module».now function.now section.now) }
{
    put_heading(out, module, function, section.mark)?;
    let parameters = function.parameters.as_slice();
    let promises = section.parameters.as_slice();
    put_parameters(alloc, out, module, function, parameters, promises)?;
    put_result(alloc, out, module, &section.result)?;
    put_other_blocks(alloc, out, module, function, section.blocks.as_slice())?;
    out.extend_from_slice(b"end\n")
}

fn put_sections(
    alloc: Global,
    out: &mut Vec<u8>,
    module: &Module,
    functions: &[Function],
    sections: &[Section],
) -> Result<(), AllocError>
    ensures { OnOk result (out.new.items ≡ out.old.items ++ spec.sections_text «module».now functions.now sections.now) }
{
    for (function, section) in functions.iter().zip(sections) {
        put_section(alloc, out, module, function, section)?;
    }
    Ok(())
}

/// The text of one section, with this code of its function.
pub fn print_section(
    alloc: Global,
    section: &Section,
    module: &Module,
    function: &Function,
) -> Result<Vec<u8>, AllocError>
    ensures { IfOk result (λ text. text.items ≡ spec.section_text «module».now function.now section.now) }
{
    let mut out = Vec::new(alloc);
    put_section(alloc, &mut out, module, function, section)?;
    Ok(out)
}

/// The shapes of certificates, or those that the module has.
fn shapes_with<'a>(certs: &'a Certs, module: &'a Module) -> Option<&'a Shapes>
    ensures { option_copied result ≡ spec.shapes_with certs.now.shapes «module».now.shapes }
{
    match certs.shapes() {
        None => module.shapes.as_ref(),
        Some(shapes) => Some(shapes),
    }
}

/// What is said of the code outside: the numbers of layouts, and the functions that are trusted.
fn put_outside(
    alloc: Global,
    out: &mut Vec<u8>,
    module: &Module,
    outside: &Outside,
) -> Result<(), AllocError>
    ensures { OnOk result (out.new.items ≡ out.old.items ++ spec.outside_text «module».now outside.now) }
{
    put_numbers(alloc, out, module, outside.numbers.as_slice())?;
    put_foreign(out, module, outside.functions.as_slice())
}

/// The first line, what is said of the code outside, and the shapes.
fn put_head(
    alloc: Global,
    out: &mut Vec<u8>,
    module: &Module,
    foreign: &Outside,
    shapes: Option<&Shapes>,
) -> Result<(), AllocError>
    ensures { OnOk result (out.new.items ≡ out.old.items ++ spec.head_text «module».now foreign.now (option_copied shapes.entry)) }
{
    match shapes {
        None => {
            out.extend_from_slice(b"cert 1\n")?;
            put_outside(alloc, out, module, foreign)
        }
        Some(shapes) => {
            out.extend_from_slice(b"cert 2\n")?;
            put_outside(alloc, out, module, foreign)?;
            put_shapes(alloc, out, module, shapes)
        }
    }
}

/// The text of certificates: numbers of layouts, and the functions outside that they trust, as they were given; shapes, where they or the module have some, and
/// sections, each in the module's order, parameters and blocks in their function's, claims as they were given.
pub fn print_cert(alloc: Global, certs: &Certs, module: &Module) -> Result<Vec<u8>, AllocError>
    ensures { IfOk result (λ text. text.items ≡ spec.cert_text certs.now «module».now) }
{
    let mut out = Vec::new(alloc);
    let shapes = shapes_with(certs, module);
    put_head(alloc, &mut out, module, &certs.foreign, shapes)?;
    let functions = module.functions.as_slice();
    put_sections(
        alloc,
        &mut out,
        module,
        functions,
        certs.sections.as_slice(),
    )?;
    Ok(out)
}
