//! Refusals and faults as findings: what is told of them, and where they are.
use crate::explained::put_unread;
use answer_objects::{FileTexts, Finding, finding_of};
use block_rules::{Detail, Refusal};
use certs::Certs;
use fault_texts::CheckedTexts;
use ir_ast::{BlockId, Function, Module};
use layout::Program;
use messages::{Look, Message, Pen};
use name_text::Blank;
use printing::{Printer, ReadText};
use reports::{Unread, line_of_refusal};
use std::alloc::{AllocError, Global};

/// What stands for a code where a file cannot be read.
pub(crate) const NO_FILE: &str = "file";

/// A name as a text of its own.
fn text_in(alloc: Global, name: Message) -> Result<String, AllocError> {
    let bytes = name.finish()?;
    String::from_utf8_lossy(alloc, bytes.as_slice())
}

/// The name of a function, with its sign.
fn function_name(
    alloc: Global,
    of_module: &Module,
    function: &Function,
) -> Result<String, AllocError> {
    let mut name = Message::new(alloc);
    name.put_global(of_module, function.symbol, Blank::Kept);
    text_in(alloc, name)
}

/// The name of a block, with its sign.
fn block_name(alloc: Global, function: &Function, block: BlockId) -> Result<String, AllocError> {
    let mut name = Message::new(alloc);
    if let Some(block) = function.blocks.get(block.number() as usize) {
        name.put_local(&function.locals, block.label, Blank::Kept);
    }
    text_in(alloc, name)
}

/// The edge of a refusal, and the line of its claim.
fn add_edge(
    alloc: Global,
    finding: &mut Finding,
    of_module: &Module,
    certs: &Certs,
    refusal: &Refusal,
    detail: Detail,
) -> Result<(), AllocError> {
    let line = line_of_refusal(alloc, of_module, certs, refusal)?;
    finding.claim = Some(String::from_utf8_lossy(alloc, line.as_slice())?);
    finding.target_number = Some(detail.target.number());
    let functions = of_module.functions.as_slice();
    if let Some(function) = functions.get(refusal.func.number() as usize) {
        finding.target = Some(block_name(alloc, function, detail.target)?);
    }
    Ok(())
}

/// Where a refusal is: the names and the numbers of the function, the block and the instruction, and the edge if it is of one.
pub(crate) fn add_place(
    alloc: Global,
    finding: &mut Finding,
    of_module: &Module,
    certs: &Certs,
    refusal: &Refusal,
) -> Result<(), AllocError> {
    let functions = of_module.functions.as_slice();
    if let Some(function) = functions.get(refusal.func.number() as usize) {
        finding.function = Some(function_name(alloc, of_module, function)?);
        finding.block = Some(block_name(alloc, function, refusal.block)?);
    }
    finding.function_number = Some(refusal.func.number());
    finding.block_number = Some(refusal.block.number());
    finding.instruction = Some(refusal.instr);
    match refusal.detail {
        Some(detail) => add_edge(alloc, finding, of_module, certs, refusal, detail),
        None => Ok(()),
    }
}

/// A refusal without what is told of it.
pub(crate) fn untold(
    alloc: Global,
    of_module: &Module,
    certs: &Certs,
    refusal: &Refusal,
) -> Result<Finding, AllocError> {
    let mut finding = Finding::of_code(alloc, refusal.rule.name())?;
    add_place(alloc, &mut finding, of_module, certs, refusal)?;
    Ok(finding)
}

/// The finding of a message, which may change these files. Where it has no code of its own it has this one.
pub(crate) fn told_in(
    alloc: Global,
    code: &str,
    message: Message,
    files: FileTexts,
) -> Result<Finding, AllocError> {
    let parts = message.finish_parts()?;
    let finding = finding_of(alloc, code, &parts, files);
    drop(parts);
    finding
}

/// A refusal with what is told of it, and with changes of these files.
fn told(
    alloc: Global,
    printer: &mut Printer<'_>,
    files: FileTexts,
    program: &Program,
    certs: &Certs,
    refusal: &Refusal,
) -> Result<Finding, AllocError> {
    let mut message = Message::in_parts(alloc);
    printer.put_refusal(&mut message, *refusal);
    let mut finding = told_in(alloc, refusal.rule.name(), message, files)?;
    add_place(alloc, &mut finding, program.module(), certs, refusal)?;
    Ok(finding)
}

/// The refusals in a program of these texts, and changes of these files.
pub(crate) fn refusals_in(
    alloc: Global,
    texts: CheckedTexts,
    files: FileTexts,
    program: &Program,
    certs: &Certs,
    refusals: &[Refusal],
) -> Result<Vec<Finding>, AllocError> {
    let mut found = Vec::new(alloc);
    let Some(read) = ReadText::of(alloc, texts.of_module)? else {
        return Ok(found);
    };
    let pen = Pen {
        alloc,
        look: Look::Plain,
    };
    let mut printer = Printer::new(pen, &read, texts.of_certs, program, certs);
    for refusal in refusals {
        found.push(told(alloc, &mut printer, files, program, certs, refusal)?)?;
    }
    drop(printer);
    drop(read);
    Ok(found)
}

/// A fault of the texts of the files.
pub(crate) fn fault_of(
    alloc: Global,
    texts: CheckedTexts,
    files: FileTexts,
    wide: bool,
    unread: &Unread,
) -> Result<Finding, AllocError> {
    let pen = Pen {
        alloc,
        look: Look::Plain,
    };
    let mut message = Message::in_parts(alloc);
    put_unread(pen, &mut message, texts, wide, unread);
    let mut fault = told_in(alloc, NO_FILE, message, files)?;
    if let Unread::NoFile(path) = unread {
        let mut name = String::new(alloc);
        name.push_str(path)?;
        fault.path = Some(name);
    }
    Ok(fault)
}
