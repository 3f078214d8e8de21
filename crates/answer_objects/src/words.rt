//! Texts in objects.
use std::alloc::{AllocError, Global};

/// A text of these bytes, without the blanks and line ends around it. Bytes that are no UTF-8 are shown as one sign, U+FFFD.
pub(crate) fn words_of(alloc: Global, bytes: &[u8]) -> Result<String, AllocError> {
    String::from_utf8_lossy(alloc, bytes.trim_ascii())
}

/// A text of all of these bytes. Bytes that are no UTF-8 are shown as one sign, U+FFFD.
pub(crate) fn text_of(alloc: Global, bytes: &[u8]) -> Result<String, AllocError> {
    String::from_utf8_lossy(alloc, bytes)
}

/// Appends a line that is not blank.
fn add_line(alloc: Global, lines: &mut Vec<String>, line: &str) -> Result<(), AllocError> {
    if line.is_empty() {
        return Ok(());
    }
    let mut owned = String::new(alloc);
    owned.push_str(line)?;
    lines.push(owned)?;
    Ok(())
}

/// Appends the lines of a text that are not blank, each without the blanks around it.
pub(crate) fn add_lines(
    alloc: Global,
    lines: &mut Vec<String>,
    bytes: &[u8],
) -> Result<(), AllocError> {
    let text = text_of(alloc, bytes)?;
    for line in text.lines() {
        add_line(alloc, lines, line.trim())?;
    }
    drop(text);
    Ok(())
}
