//! What is told of a refusal or of a fault, by the parts of the message that explains it. Members are in the order of their names.
use crate::fixes::{FileTexts, FixObject, add_fix};
use crate::words::{add_lines, words_of};
use ir_tokens::Position;
use messages::{Marked, Part, Parts};
use serde::Serialize;
use std::alloc::{AllocError, Global};

/// A part of a line, under which a caret stands.
#[derive(Clone, Copy, Serialize)]
pub struct MarkObject {
    pub column: usize,
    pub length: usize,
    pub line: usize,
}

/// What is said of another place.
#[derive(Drop, Serialize)]
pub struct NoteObject {
    #[serde(skip_serializing_if = "Option::is_none")]
    pub column: Option<usize>,
    #[serde(skip_serializing_if = "Option::is_none")]
    pub line: Option<usize>,
    #[serde(skip_serializing_if = "Option::is_none")]
    pub mark: Option<MarkObject>,
    #[serde(skip_serializing_if = "Option::is_none")]
    pub path: Option<String>,
    pub text: String,
}

/// A refusal, or a fault of a text.
#[derive(Drop, Serialize)]
pub struct Finding {
    #[serde(skip_serializing_if = "Option::is_none")]
    pub block: Option<String>,
    #[serde(skip_serializing_if = "Option::is_none")]
    pub block_number: Option<u32>,
    #[serde(skip_serializing_if = "Option::is_none")]
    pub claim: Option<String>,
    pub code: String,
    #[serde(skip_serializing_if = "Option::is_none")]
    pub column: Option<usize>,
    #[serde(skip_serializing_if = "Vec::is_empty")]
    pub fixes: Vec<FixObject>,
    #[serde(skip_serializing_if = "Vec::is_empty")]
    pub form: Vec<String>,
    #[serde(skip_serializing_if = "Option::is_none")]
    pub function: Option<String>,
    #[serde(skip_serializing_if = "Option::is_none")]
    pub function_number: Option<u32>,
    #[serde(skip_serializing_if = "Vec::is_empty")]
    pub here: Vec<String>,
    #[serde(skip_serializing_if = "Option::is_none")]
    pub instruction: Option<usize>,
    #[serde(skip_serializing_if = "Vec::is_empty")]
    pub known: Vec<String>,
    #[serde(skip_serializing_if = "Option::is_none")]
    pub label: Option<String>,
    #[serde(skip_serializing_if = "Option::is_none")]
    pub line: Option<usize>,
    #[serde(skip_serializing_if = "Option::is_none")]
    pub mark: Option<MarkObject>,
    #[serde(skip_serializing_if = "Vec::is_empty")]
    pub mend: Vec<String>,
    #[serde(skip_serializing_if = "Vec::is_empty")]
    pub notes: Vec<NoteObject>,
    #[serde(skip_serializing_if = "Option::is_none")]
    pub path: Option<String>,
    #[serde(skip_serializing_if = "Option::is_none")]
    pub target: Option<String>,
    #[serde(skip_serializing_if = "Option::is_none")]
    pub target_number: Option<u32>,
    #[serde(skip_serializing_if = "Option::is_none")]
    pub text: Option<String>,
    #[serde(skip_serializing_if = "Vec::is_empty")]
    pub words: Vec<String>,
}

/// A path that was named last, and the position in its file.
#[derive(Drop)]
struct Place {
    path: Option<String>,
    position: Option<Position>,
}

impl Finding {
    /// Nothing is told of this code.
    pub fn of_code(alloc: Global, code: &str) -> Result<Finding, AllocError> {
        Ok(Finding {
            block: None,
            block_number: None,
            claim: None,
            code: words_of(alloc, code.as_bytes())?,
            column: None,
            fixes: Vec::new(alloc),
            form: Vec::new(alloc),
            function: None,
            function_number: None,
            here: Vec::new(alloc),
            instruction: None,
            known: Vec::new(alloc),
            label: None,
            line: None,
            mark: None,
            mend: Vec::new(alloc),
            notes: Vec::new(alloc),
            path: None,
            target: None,
            target_number: None,
            text: None,
            words: Vec::new(alloc),
        })
    }
}

fn line_of(position: Option<Position>) -> Option<usize> {
    match position {
        Some(position) => Some(position.line),
        None => None,
    }
}

fn column_of(position: Option<Position>) -> Option<usize> {
    match position {
        Some(position) => Some(position.column),
        None => None,
    }
}

fn mark_of(marked: Marked) -> MarkObject {
    MarkObject {
        column: marked.position.column,
        length: marked.length,
        line: marked.position.line,
    }
}

/// The code, and the place that was named before it.
fn add_code(
    alloc: Global,
    finding: &mut Finding,
    place: &mut Place,
    text: &[u8],
) -> Result<(), AllocError> {
    finding.code = words_of(alloc, text)?;
    finding.path = place.path.take();
    finding.line = line_of(place.position);
    finding.column = column_of(place.position);
    place.position = None;
    Ok(())
}

/// A note, and the place that was named before it.
fn add_note(
    alloc: Global,
    finding: &mut Finding,
    place: &mut Place,
    text: &[u8],
) -> Result<(), AllocError> {
    let position = place.position;
    place.position = None;
    finding.notes.push(NoteObject {
        column: column_of(position),
        line: line_of(position),
        mark: None,
        path: place.path.take(),
        text: words_of(alloc, text)?,
    })?;
    Ok(())
}

/// The mark belongs to the last note, or to the finding itself where there is none.
fn add_mark(finding: &mut Finding, marked: Marked) {
    match finding.notes.last_mut() {
        Some(note) => note.mark = Some(mark_of(marked)),
        None => {
            if finding.mark.is_none() {
                finding.mark = Some(mark_of(marked));
            }
        }
    }
}

/// What is said beside the caret, if something is.
fn add_label(alloc: Global, finding: &mut Finding, text: &[u8]) -> Result<(), AllocError> {
    let label = words_of(alloc, text)?;
    if label.is_empty() || finding.label.is_some() {
        drop(label);
    } else {
        finding.label = Some(label);
    }
    Ok(())
}

/// The lines of a part that has some.
fn lines_in<'a>(finding: &'a mut Finding, part: Part) -> &'a mut Vec<String> {
    match part {
        Part::Known => &mut finding.known,
        Part::Words => &mut finding.words,
        Part::Here => &mut finding.here,
        Part::Form => &mut finding.form,
        _ => &mut finding.mend,
    }
}

fn add_part(
    alloc: Global,
    finding: &mut Finding,
    place: &mut Place,
    part: Part,
    text: &[u8],
) -> Result<(), AllocError> {
    match part {
        Part::Between => Ok(()),
        Part::Place(position) => {
            place.path = Some(words_of(alloc, text)?);
            place.position = position;
            Ok(())
        }
        Part::Code => add_code(alloc, finding, place, text),
        Part::Sentence => {
            finding.text = Some(words_of(alloc, text)?);
            Ok(())
        }
        Part::Note => add_note(alloc, finding, place, text),
        Part::Excerpt(marked) => {
            add_mark(finding, marked);
            Ok(())
        }
        Part::Label => add_label(alloc, finding, text),
        _ => add_lines(alloc, lines_in(finding, part), text),
    }
}

/// What a message tells of this code, whose changes are of these texts.
pub fn finding_of(
    alloc: Global,
    code: &str,
    parts: &Parts,
    texts: FileTexts,
) -> Result<Finding, AllocError> {
    let mut finding = Finding::of_code(alloc, code)?;
    let mut place = Place {
        path: None,
        position: None,
    };
    for number in 0..parts.count() {
        if let Some((part, text)) = parts.part(number) {
            add_part(alloc, &mut finding, &mut place, part, text)?;
        }
    }
    drop(place);
    for fix in parts.fixes.as_slice() {
        add_fix(alloc, &mut finding.fixes, texts, fix)?;
    }
    Ok(finding)
}
