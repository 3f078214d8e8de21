//! Changes of the files that mend a fault, as a message in parts offers them.
use crate::forms::lexed_of;
use ir_ast::{Function, Module, Runtime};
use messages::{
    CertLine, Change, ChangedFile, Fix, Message, NamedText, Pen, Pointers, cert_place,
    declare_change,
};
use name_text::{Blank, past_blanks, word};
use std::alloc::{AllocError, Global};

/// Offers one change, if it is known.
fn offer(alloc: Global, out: &mut Message, change: Result<Option<Change>, AllocError>) {
    match fix_of(alloc, change) {
        Ok(Some(fix)) => out.add_fix(fix),
        Ok(None) => {}
        Err(_) => out.refuse(),
    }
}

/// A fix of one change.
fn fix_of(
    alloc: Global,
    change: Result<Option<Change>, AllocError>,
) -> Result<Option<Fix>, AllocError> {
    let Some(change) = change? else {
        return Ok(None);
    };
    let mut changes = Vec::new(alloc);
    changes.push(change)?;
    Ok(Some(Fix {
        is_safe: true,
        changes,
    }))
}

/// The line that declares a function of the runtime, if the text is short enough to be read.
fn declared(
    alloc: Global,
    named: NamedText,
    runtime: &Runtime,
    pointers: Pointers,
) -> Result<Option<Change>, AllocError> {
    match lexed_of(alloc, named)? {
        Some(lexed) => {
            let change = declare_change(alloc, lexed.tokens.as_slice(), runtime, pointers);
            drop(lexed);
            Ok(Some(change?))
        }
        None => Ok(None),
    }
}

/// Offers the line that declares a function of the runtime, before the functions of the text.
pub(crate) fn offer_declare(
    pen: Pen,
    out: &mut Message,
    named: NamedText,
    runtime: &Runtime,
    pointers: Pointers,
) {
    if out.keeps_fixes() {
        offer(
            pen.alloc,
            out,
            declared(pen.alloc, named, runtime, pointers),
        )
    }
}

/// Where the first line from a place of a text on begins whose first word is `end`.
fn end_after(text: &[u8], from: usize) -> Option<usize> {
    let mut begins = true;
    for (place, byte) in text.iter().enumerate().skip(from) {
        let rest = text.get(place..).unwrap_or(&[]);
        if begins && word(past_blanks(rest)) == b"end".as_slice() {
            return Some(place);
        }
        begins = *byte == b'\n';
    }
    None
}

/// Where the section of a function ends in the text of a certificate.
fn end_of_section(
    alloc: Global,
    text: &[u8],
    of_module: &Module,
    function: &Function,
) -> Result<Option<usize>, AllocError> {
    let mut name = Message::new(alloc);
    name.put_global(of_module, function.symbol, Blank::Kept);
    let name = name.finish()?;
    match cert_place(text, name.as_slice(), b"", CertLine::Mark) {
        Some(from) => Ok(end_after(text, from)),
        None => Ok(None),
    }
}

/// The line of a block.
fn block_line(alloc: Global, function: &Function, block: usize) -> Result<Vec<u8>, AllocError> {
    let mut line = Message::new(alloc);
    line.put("block ");
    if let Some(block) = function.blocks.get(block) {
        line.put_local(&function.locals, block.label, Blank::Kept);
    }
    line.put("\n");
    line.finish()
}

fn block_change(
    alloc: Global,
    text: &[u8],
    of_module: &Module,
    function: usize,
    block: usize,
) -> Result<Option<Change>, AllocError> {
    let Some(function) = of_module.functions.get(function) else {
        return Ok(None);
    };
    let Some(start) = end_of_section(alloc, text, of_module, function)? else {
        return Ok(None);
    };
    Ok(Some(Change {
        file: ChangedFile::Certificate,
        start,
        length: 0,
        new: block_line(alloc, function, block)?,
    }))
}

/// Offers the line of a block at the end of the section of its function.
pub(crate) fn offer_block(
    pen: Pen,
    out: &mut Message,
    named: NamedText,
    of_module: &Module,
    function: usize,
    block: usize,
) {
    if out.keeps_fixes() {
        offer(
            pen.alloc,
            out,
            block_change(pen.alloc, named.text, of_module, function, block),
        )
    }
}
