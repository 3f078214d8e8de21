//! Places as SARIF has them: paths as references of URIs, and columns in characters.
use crate::finding::MarkObject;
use crate::fixes::{ChangeObject, FileTexts};
use crate::sarif_log::{ArtifactLocation, Region};
use ir_tokens::Position;
use messages::line_numbered;
use std::alloc::{AllocError, Global};

/// Whether a byte stands for itself in the path of a URI.
fn stands(byte: u8) -> bool {
    byte.is_ascii_alphanumeric() || matches!(byte, b'-' | b'.' | b'_' | b'~' | b'/')
}

/// A digit of base 16.
fn digit(number: u8) -> char {
    match number {
        0 => '0',
        1 => '1',
        2 => '2',
        3 => '3',
        4 => '4',
        5 => '5',
        6 => '6',
        7 => '7',
        8 => '8',
        9 => '9',
        10 => 'A',
        11 => 'B',
        12 => 'C',
        13 => 'D',
        14 => 'E',
        _ => 'F',
    }
}

/// A path as a reference of a URI.
fn uri_of(alloc: Global, path: &str) -> Result<String, AllocError> {
    let mut uri = String::new(alloc);
    uri.push_str(if path.starts_with('/') { "file://" } else { "" })?;
    for byte in path.as_bytes() {
        if stands(*byte) {
            uri.push(char::from(*byte))?;
        } else {
            uri.push('%')?;
            uri.push(digit(*byte / 16))?;
            uri.push(digit(*byte % 16))?;
        }
    }
    Ok(uri)
}

pub(crate) fn location_of(alloc: Global, path: &str) -> Result<ArtifactLocation, AllocError> {
    Ok(ArtifactLocation {
        uri: uri_of(alloc, path)?,
    })
}

/// The text of the file with this path, empty where it is none of these.
fn text_at<'a>(texts: FileTexts<'a>, path: &str) -> &'a [u8] {
    match (texts.of_module, texts.certificate) {
        (Some(named), _) if named.path == path => named.text,
        (_, Some(named)) if named.path == path => named.text,
        _ => &[],
    }
}

/// How many bytes of UTF-8 go on with a character.
fn tails(bytes: &[u8]) -> usize {
    bytes
        .iter()
        .filter(|byte| matches!(**byte, 0x80..=0xbf))
        .count()
}

/// The same column, counted in characters. Where the line is not UTF-8 it is counted in bytes.
fn in_characters(text: &[u8], line: usize, column: usize) -> usize {
    let whole = line_numbered(text, line.saturating_sub(1));
    if str::from_utf8(whole).is_err() {
        return column;
    }
    let before = whole.get(..column.saturating_sub(1)).unwrap_or(whole);
    column.saturating_sub(tails(before))
}

fn region_between(text: &[u8], start: Position, end: Position) -> Region {
    Region {
        end_column: in_characters(text, end.line, end.column),
        end_line: end.line,
        start_column: in_characters(text, start.line, start.column),
        start_line: start.line,
    }
}

/// The part of a line from a column on.
fn region_in(text: &[u8], line: usize, column: usize, length: usize) -> Region {
    let end = Position {
        line,
        column: column.saturating_add(length),
    };
    region_between(text, Position { line, column }, end)
}

/// The marked part of a file; where none is marked, the place. None of a file as a whole.
pub(crate) fn region_of(
    texts: FileTexts,
    path: &str,
    line: Option<usize>,
    column: Option<usize>,
    mark: Option<MarkObject>,
) -> Option<Region> {
    let text = text_at(texts, path);
    match (mark, line, column) {
        (Some(mark), _, _) => Some(region_in(text, mark.line, mark.column, mark.length)),
        (None, Some(line), Some(column)) => Some(region_in(text, line, column, 0)),
        _ => None,
    }
}

/// The part of a file that a change replaces.
pub(crate) fn change_region(texts: FileTexts, change: &ChangeObject) -> Region {
    let text = text_at(texts, change.path.as_str());
    let start = Position {
        line: change.line,
        column: change.column,
    };
    let end = change.start.saturating_add(change.length);
    let end = Position::after(text.get(..end).unwrap_or(text));
    region_between(text, start, end)
}
