//! Changes that mend what is refused, as objects.
use crate::words::text_of;
use ir_tokens::Position;
use messages::{Change, ChangedFile, Fix, NamedText};
use serde::Serialize;
use std::alloc::{AllocError, Global};

/// The texts of the files that may be changed: those that a command was given.
#[derive(Clone, Copy)]
pub struct FileTexts<'a> {
    pub of_module: Option<NamedText<'a>>,
    pub certificate: Option<NamedText<'a>>,
}

impl FileTexts<'_> {
    /// No file may be changed.
    pub const NONE: FileTexts<'static> = FileTexts {
        of_module: None,
        certificate: None,
    };
}

/// A text in the place of another one.
#[derive(Drop, Serialize)]
pub struct ChangeObject {
    pub column: usize,
    pub file: &'static str,
    pub length: usize,
    pub line: usize,
    pub new: String,
    pub old: String,
    pub path: String,
    pub start: usize,
}

/// Changes that are made together.
#[derive(Drop, Serialize)]
pub struct FixObject {
    pub changes: Vec<ChangeObject>,
    pub safe: bool,
}

fn named_in<'a>(texts: FileTexts<'a>, file: ChangedFile) -> Option<NamedText<'a>> {
    match file {
        ChangedFile::Module => texts.of_module,
        ChangedFile::Certificate => texts.certificate,
    }
}

fn word_of(file: ChangedFile) -> &'static str {
    match file {
        ChangedFile::Module => "module",
        ChangedFile::Certificate => "certificate",
    }
}

fn change_of(alloc: Global, named: NamedText, change: &Change) -> Result<ChangeObject, AllocError> {
    let before = named.text.get(..change.start).unwrap_or(named.text);
    let position = Position::after(before);
    let end = change.start.saturating_add(change.length);
    let old = named.text.get(change.start..end).unwrap_or(&[]);
    Ok(ChangeObject {
        column: position.column,
        file: word_of(change.file),
        length: change.length,
        line: position.line,
        new: text_of(alloc, change.new.as_slice())?,
        old: text_of(alloc, old)?,
        path: text_of(alloc, named.path.as_bytes())?,
        start: change.start,
    })
}

/// Appends a fix of the files with these texts, if it changes no other text.
pub(crate) fn add_fix(
    alloc: Global,
    fixes: &mut Vec<FixObject>,
    texts: FileTexts,
    fix: &Fix,
) -> Result<(), AllocError> {
    let mut changes = Vec::new(alloc);
    for change in fix.changes.as_slice() {
        if let Some(named) = named_in(texts, change.file) {
            changes.push(change_of(alloc, named, change)?)?;
        }
    }
    if changes.len() < fix.changes.len() {
        drop(changes);
        return Ok(());
    }
    fixes.push(FixObject {
        changes,
        safe: fix.is_safe,
    })?;
    Ok(())
}
