//! Places of a text.
use ir_tokens::Position;

/// How many bytes of a text come before a position of it.
pub fn offset_of(text: &[u8], position: Position) -> usize {
    let mut line: usize = 1;
    for (place, byte) in text.iter().enumerate() {
        if line == position.line {
            return place.saturating_add(position.column.saturating_sub(1));
        }
        if *byte == b'\n' {
            line = line.saturating_add(1);
        }
    }
    text.len()
}

/// The bytes of a text between two places.
pub(crate) fn between(text: &[u8], start: usize, end: usize) -> &[u8] {
    text.get(start..end).unwrap_or(&[])
}

/// The bytes of a text from a place on.
pub(crate) fn after(text: &[u8], start: usize) -> &[u8] {
    text.get(start..).unwrap_or(&[])
}

/// What has to come before a further line at the end of a text.
pub(crate) fn line_break(text: &[u8]) -> &'static str {
    match text {
        [] | [.., b'\n'] => "",
        _ => "\n",
    }
}
