//! The section of a function in the text of a certificate, and another one in its place.
use crate::places::{after, between, line_break};
use messages::{CertLine, Change, ChangedFile, Message, cert_place};
use name_text::{past_blanks, past_word, word};
use std::alloc::{AllocError, Global};

/// Where a section is: from the line that names its function to the word `end`.
#[derive(Clone, Copy)]
struct Section {
    start: usize,
    end: usize,
}

/// How many bytes a text has up to the end of its first word.
fn to_word_end(text: &[u8]) -> usize {
    let left = past_word(past_blanks(text)).len();
    text.len().saturating_sub(left)
}

/// How many bytes a text has up to the end of the first word of a line, if that is this one. It may be the first line that has it.
fn to_line_of(text: &[u8], first: &[u8]) -> usize {
    let mut begins = true;
    for (place, byte) in text.iter().enumerate() {
        let line = after(text, place);
        if begins && word(past_blanks(line)) == first {
            return place.saturating_add(to_word_end(line));
        }
        begins = *byte == b'\n';
    }
    text.len()
}

/// The section of the function of this name, which is printed with its sign.
fn section_of(text: &[u8], name: &[u8]) -> Option<Section> {
    let start = cert_place(text, name, b"", CertLine::Mark)?;
    let length = to_line_of(after(text, start), b"end");
    Some(Section {
        start,
        end: start.saturating_add(length),
    })
}

/// The name of the function in whose section a place of a certificate's text is, with its sign; empty where it is in none.
pub fn section_name(text: &[u8], place: usize) -> &[u8] {
    let mut name: &[u8] = &[];
    let mut begins = true;
    for (at, byte) in text.iter().enumerate() {
        if at > place {
            return name;
        }
        if begins {
            name = name_after(after(text, at), name);
        }
        begins = *byte == b'\n';
    }
    name
}

/// The name of the function that a line names, if it begins a section, and what was found otherwise.
pub(crate) fn name_after<'a>(line: &'a [u8], found: &'a [u8]) -> &'a [u8] {
    let line = past_blanks(line);
    if word(line) == b"function".as_slice() {
        word(past_blanks(past_word(line)))
    } else {
        found
    }
}

/// A section in place of another one.
fn replaced(alloc: Global, old: Section, section: &[u8]) -> Result<Change, AllocError> {
    Ok(Change {
        file: ChangedFile::Certificate,
        start: old.start,
        length: old.end.saturating_sub(old.start),
        new: Vec::from_slice(alloc, section)?,
    })
}

/// A section at the end of a certificate.
fn added(alloc: Global, text: &[u8], section: &[u8]) -> Result<Change, AllocError> {
    let mut out = Message::new(alloc);
    out.put(line_break(text));
    out.put_bytes(section);
    out.put("\n");
    Ok(Change {
        file: ChangedFile::Certificate,
        start: text.len(),
        length: 0,
        new: out.finish()?,
    })
}

/// A section goes, with the rest of its last line.
fn removed(alloc: Global, text: &[u8], old: Section) -> Change {
    let line = after(text, old.end);
    let rest = line
        .iter()
        .take_while(|byte| **byte != b'\n')
        .count()
        .saturating_add(1)
        .min(line.len());
    Change {
        file: ChangedFile::Certificate,
        start: old.start,
        length: old.end.saturating_sub(old.start).saturating_add(rest),
        new: Vec::new(alloc),
    }
}

/// What makes the section of the function of this name in a certificate as it is in another one: it is replaced, or added, or it goes.
/// Nothing where both are the same.
pub fn section_change(
    alloc: Global,
    text: &[u8],
    other: &[u8],
    name: &[u8],
) -> Result<Option<Change>, AllocError> {
    match (section_of(text, name), section_of(other, name)) {
        (Some(old), Some(new)) => {
            let section = between(other, new.start, new.end);
            if between(text, old.start, old.end) == section {
                Ok(None)
            } else {
                Ok(Some(replaced(alloc, old, section)?))
            }
        }
        (None, Some(new)) => {
            let section = between(other, new.start, new.end);
            Ok(Some(added(alloc, text, section)?))
        }
        (Some(old), None) => Ok(Some(removed(alloc, text, old))),
        (None, None) => Ok(None),
    }
}

/// Another certificate in place of this one.
pub fn whole_change(alloc: Global, text: &[u8], other: &[u8]) -> Result<Change, AllocError> {
    Ok(Change {
        file: ChangedFile::Certificate,
        start: 0,
        length: text.len(),
        new: Vec::from_slice(alloc, other)?,
    })
}
