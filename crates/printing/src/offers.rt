//! Changes of the files that mend a refusal, as a message in parts offers them.
use crate::barrier_lines::put_barrier_lines;
use crate::cert_lines::cert_position;
use crate::claims::put_claim;
use crate::groups::fact_at;
use crate::mends::OPAQUE_CALL;
use crate::told::{Told, put_text};
use certs::{Fact, is_opaque_text};
use diagnosis::{Diagnosis, Mend, Mending, Sought, Spot, Unlisted};
use ir_ast::{Runtime, TypeId, ValueId};
use ir_tokens::{Position, Token};
use messages::{Change, ChangedFile, Fix, Message, Pointers, declare_change, is_declared};
use std::alloc::{AllocError, Global};

/// Some bytes of a text.
#[derive(Clone, Copy)]
struct Extent {
    start: usize,
    length: usize,
}

/// How many bytes come before the end of a token.
fn end_of(token: Token) -> usize {
    (token.start as usize).saturating_add(token.length as usize)
}

/// The bytes of some tokens and what is between them.
fn extent_of_tokens(tokens: &[Token]) -> Option<Extent> {
    let start = tokens.first()?.start as usize;
    let end = end_of(*tokens.last()?);
    Some(Extent {
        start,
        length: end.saturating_sub(start),
    })
}

/// The bytes of an instruction that is not the last one of its block.
fn extent_of(told: &Told, spot: &Spot) -> Option<Extent> {
    let next = Spot {
        place: spot.place.saturating_add(1),
        ..*spot
    };
    let first = told.token_number(spot)?;
    let after = told.token_number(&next)?;
    extent_of_tokens(told.texts.source.tokens.get(first..after)?)
}

/// The blanks that a line begins with, up to this many bytes of its text.
fn indent_before(text: &[u8], start: usize) -> &[u8] {
    let before = text.get(..start).unwrap_or(text);
    let length = before
        .iter()
        .rev()
        .take_while(|byte| **byte != b'\n')
        .count();
    let line = before
        .get(before.len().saturating_sub(length)..)
        .unwrap_or(before);
    let blanks = line
        .iter()
        .take_while(|byte| matches!(**byte, b' ' | b'\t'))
        .count();
    line.get(..blanks).unwrap_or(line)
}

/// The lines of a text without the blanks around them, each after these blanks but for the first one.
fn indented(alloc: Global, lines: &str, indent: &[u8]) -> Result<Vec<u8>, AllocError> {
    let mut text = Vec::new(alloc);
    for line in lines.trim().split('\n') {
        if !text.is_empty() {
            text.push(b'\n')?;
            text.extend_from_slice(indent)?;
        }
        text.extend_from_slice(line.trim().as_bytes())?;
    }
    Ok(text)
}

/// The lines in place of a store of such a value into such a place, as the text has them.
fn barrier_code(
    told: &Told,
    stored: TypeId,
    place_type: TypeId,
    start: usize,
) -> Result<Vec<u8>, AllocError> {
    let alloc = told.texts.pen.alloc;
    let mut code = Message::new(alloc);
    if is_opaque_text(told.module()) {
        put_text(&mut code, told, OPAQUE_CALL)
    } else {
        put_barrier_lines(&mut code, told, stored, place_type)
    }
    let code = code.finish()?;
    // Names are written in ASCII.
    let lines = str::from_utf8(code.as_slice()).unwrap_or("");
    let lines = indented(alloc, lines, indent_before(told.texts.source.text, start));
    drop(code);
    lines
}

/// Appends the line that declares llvm.gcwrite, if the module does not.
fn add_declare(told: &Told, changes: &mut Vec<Change>) -> Result<(), AllocError> {
    let of_module = told.module();
    if is_declared(of_module, &Runtime::GcWrite) {
        return Ok(());
    }
    changes.push(declare_change(
        told.texts.pen.alloc,
        told.texts.source.tokens,
        &Runtime::GcWrite,
        Pointers::of_module(of_module),
    )?)?;
    Ok(())
}

/// The declaration of the barrier where there is none, and the barrier in the place of the refused store. None where the store is not
/// found in the text.
fn barrier_changes(
    told: &Told,
    spot: &Spot,
    stored: TypeId,
    place_type: TypeId,
) -> Result<Vec<Change>, AllocError> {
    let mut changes = Vec::new(told.texts.pen.alloc);
    if let Some(extent) = extent_of(told, spot) {
        add_declare(told, &mut changes)?;
        changes.push(Change {
            file: ChangedFile::Module,
            start: extent.start,
            length: extent.length,
            new: barrier_code(told, stored, place_type, extent.start)?,
        })?;
    }
    Ok(changes)
}

/// How many bytes come before the line after this one.
fn after_line(text: &[u8], line: usize) -> usize {
    let mut left = line;
    for (place, byte) in text.iter().enumerate() {
        if *byte == b'\n' {
            left = left.saturating_sub(1);
        }
        if left == 0 {
            return place.saturating_add(1);
        }
    }
    text.len()
}

/// A claim as a line of a certificate.
fn claim_line(told: &Told, value: ValueId, fact: Fact) -> Result<Vec<u8>, AllocError> {
    let mut line = Message::new(told.texts.pen.alloc);
    line.put("  ");
    put_claim(&mut line, told, value, fact);
    line.put("\n");
    line.finish()
}

/// A claim as the first one of a block of the certificate, whose line is at a position.
fn claim_added(
    told: &Told,
    position: Position,
    value: ValueId,
    fact: Fact,
) -> Result<Change, AllocError> {
    Ok(Change {
        file: ChangedFile::Certificate,
        start: after_line(told.texts.certificate.text, position.line),
        length: 0,
        new: claim_line(told, value, fact)?,
    })
}

/// What each block has to list that the certificate names, as a change of that.
fn claims_added(
    told: &Told,
    value: ValueId,
    fact: &Fact,
    each: &[Unlisted],
) -> Result<Vec<Change>, AllocError> {
    let mut changes = Vec::new(told.texts.pen.alloc);
    for unlisted in each {
        let sought = Sought::Block(unlisted.block);
        if let Some(position) = cert_position(&told.texts, told.function, &sought)? {
            let fact = fact_at(unlisted.nonnull, unlisted.fresh, fact);
            changes.push(claim_added(told, position, value, fact)?)?;
        }
    }
    Ok(changes)
}

/// The changes of the files that a way makes which mends a refusal; none of most ways.
fn changes_of(
    told: &Told,
    diagnosis: &Diagnosis,
    mending: &Mending,
) -> Result<Vec<Change>, AllocError> {
    match mending {
        Mending::Barrier { stored, place_type } => barrier_changes(
            told,
            &diagnosis.spot(),
            *stored,
            *place_type,
        ),
        Mending::List(value, fact) => {
            claims_added(told, *value, fact, diagnosis.unlisted.as_slice())
        }
        _ => Ok(Vec::new(told.texts.pen.alloc)),
    }
}

/// The changes of the first way that makes some.
pub(crate) fn changes_in(told: &Told, diagnosis: &Diagnosis) -> Result<Vec<Change>, AllocError> {
    for Mend { mending, holes } in &diagnosis.mends {
        if let Some(told) = Told::of(&told.texts, *holes) {
            let changes = changes_of(&told, diagnosis, mending)?;
            if !changes.is_empty() {
                return Ok(changes);
            }
        }
    }
    Ok(Vec::new(told.texts.pen.alloc))
}

/// Offers changes of the files, where the message keeps them.
pub(crate) fn offer_changes(out: &mut Message, told: &Told, diagnosis: &Diagnosis) {
    if !out.keeps_fixes() {
        return;
    }
    match changes_in(told, diagnosis) {
        Ok(changes) => {
            if changes.is_empty() {
                drop(changes)
            } else {
                out.add_fix(Fix {
                    is_safe: true,
                    changes,
                })
            }
        }
        Err(_) => out.refuse(),
    }
}
