//! A line of a text with its number, and a caret under a part of it. Columns are those of a terminal; tabs stay; what a terminal would
//! obey is shown as `?`; a long line is cut around the caret.
use crate::lines::{line_at, line_numbered};
use crate::look::{Ink, Pen};
use crate::message::Message;
use crate::parts::{Marked, Part};
use ir_tokens::{Position, Token};
use std::str;
use unicode_width::UnicodeWidthChar;

/// The most bytes of a line that are shown.
const SHOWN: usize = 110;

/// How many of them stand before the caret, where a line is cut.
const BEFORE: usize = 50;

/// A part of a line.
#[derive(Clone, Copy)]
struct Span {
    start: usize,
    length: usize,
}

/// The bytes of a line that are shown.
#[derive(Clone, Copy)]
struct Window {
    start: usize,
    end: usize,
}

/// Whether a character may begin with this byte.
fn may_begin(byte: Option<&u8>) -> bool {
    match byte {
        Some(byte) => *byte < 0x80 || *byte >= 0xc0,
        None => true,
    }
}

/// The first place from here on at which a character begins.
fn at_character(line: &[u8], place: usize) -> usize {
    for more in 0..3usize {
        if may_begin(line.get(place.saturating_add(more))) {
            return place.saturating_add(more);
        }
    }
    place
}

fn window_of(line: &[u8], part: Span) -> Window {
    if line.len() <= SHOWN {
        return Window {
            start: 0,
            end: line.len(),
        };
    }
    let start = at_character(line, part.start.saturating_sub(BEFORE));
    let end = at_character(line, start.saturating_add(SHOWN));
    Window {
        start,
        end: if end.saturating_add(3) < line.len() {
            end
        } else {
            line.len()
        },
    }
}

fn between(line: &[u8], start: usize, end: usize) -> &[u8] {
    line.get(start..end).unwrap_or(&[])
}

/// The byte that is shown for one of a text.
fn shown(byte: u8, is_text: bool) -> u8 {
    let obeyed = byte < 0x20 || byte == 0x7f || (byte >= 0x80 && !is_text);
    if obeyed && byte != b'\t' { b'?' } else { byte }
}

fn put_shown(out: &mut Message, bytes: &[u8]) {
    let is_text = str::from_utf8(bytes).is_ok();
    for byte in bytes {
        out.put_byte(shown(*byte, is_text));
    }
}

/// As many blanks as a character has columns. A tab stays.
fn blank_for(character: char) -> &'static str {
    match (character, character.width()) {
        ('\t', _) => "\t",
        (_, Some(0)) => "",
        (_, Some(2)) => "  ",
        _ => " ",
    }
}

/// Blanks under a text that is shown.
fn put_blanks_under(out: &mut Message, before: &[u8]) {
    match str::from_utf8(before) {
        Ok(before) => {
            for character in before.chars() {
                out.put(blank_for(character));
            }
        }
        Err(_) => {
            for byte in before {
                out.put(if *byte == b'\t' { "\t" } else { " " });
            }
        }
    }
}

/// How many columns a text has.
fn columns(bytes: &[u8]) -> usize {
    let mut count: usize = 0;
    match str::from_utf8(bytes) {
        Ok(text) => {
            for character in text.chars() {
                count = count.saturating_add(character.width().unwrap_or(1));
            }
        }
        Err(_) => count = bytes.len(),
    }
    count
}

/// A caret, and a line as long as what it is under.
fn put_caret(out: &mut Message, marked: &[u8]) {
    out.put("^");
    for _column in 1..columns(marked) {
        out.put("~");
    }
}

/// Blanks before the number of a line, so that numbers end in one column.
fn blanks_before(number: usize) -> &'static str {
    match number {
        0..=9 => "    ",
        10..=99 => "   ",
        100..=999 => "  ",
        1000..=9999 => " ",
        _ => "",
    }
}

fn put_gutter(out: &mut Message, pen: Pen, number: usize) {
    out.begin_ink(pen.look, Ink::Gutter);
    out.put(blanks_before(number));
    out.put_number(number as u64);
    out.put(" | ");
    out.end_ink(pen.look)
}

/// What stands where a line is cut.
fn cut_mark(cut: bool) -> &'static str {
    if cut { "..." } else { "" }
}

fn put_line(out: &mut Message, line: &[u8], window: Window) {
    out.put(cut_mark(window.start > 0));
    put_shown(out, between(line, window.start, window.end));
    out.put(cut_mark(window.end < line.len()));
    out.put("\n")
}

/// The caret under a part of a line that is shown. The line goes on.
fn put_under(out: &mut Message, pen: Pen, ink: Ink, line: &[u8], window: Window, part: Span) {
    out.put_inked(pen.look, Ink::Gutter, "      | ");
    out.put(if window.start > 0 { "   " } else { "" });
    put_blanks_under(out, between(line, window.start, part.start));
    let end = part.start.saturating_add(part.length).min(window.end);
    out.begin_ink(pen.look, ink);
    put_caret(out, between(line, part.start, end));
    out.end_ink(pen.look)
}

/// A line without a carriage return at its end.
fn without_return(line: &[u8]) -> &[u8] {
    match line {
        [before @ .., b'\r'] => before,
        _ => line,
    }
}

fn put_part(out: &mut Message, pen: Pen, ink: Ink, number: usize, line: &[u8], part: Span) {
    let line = without_return(line);
    let window = window_of(line, part);
    out.begin_part(Part::Excerpt(marked_of(number, line, part)));
    put_gutter(out, pen, number);
    put_line(out, line, window);
    put_under(out, pen, ink, line, window, part);
    out.begin_part(Part::Label)
}

/// A part of the line with this number, by its position.
fn marked_of(number: usize, line: &[u8], part: Span) -> Marked {
    Marked {
        position: Position {
            line: number,
            column: part.start.saturating_add(1),
        },
        length: part.length.min(line.len().saturating_sub(part.start)),
    }
}

/// The line of a token, and a caret under it. What is said of it may follow, and then the line's end.
pub fn put_token_line(out: &mut Message, pen: Pen, ink: Ink, text: &[u8], token: Token) {
    let position = Position::of(text, token.start);
    put_line_of_token(out, pen, ink, text, token, position)
}

/// The line of a token at this position, and a caret under it.
pub fn put_line_of_token(
    out: &mut Message,
    pen: Pen,
    ink: Ink,
    text: &[u8],
    token: Token,
    position: Position,
) {
    let place = (token.start as usize).min(text.len());
    let line = line_at(text, place);
    let part = Span {
        start: place.saturating_sub(line.start),
        length: token.length as usize,
    };
    put_part(out, pen, ink, position.line, line.bytes, part)
}

/// Whether a byte is no part of a word: a blank, or a mark that stands alone.
fn ends_word(byte: u8) -> bool {
    matches!(
        byte,
        b' ' | b'\t' | b'\r' | b',' | b'(' | b')' | b'<' | b'>' | b'[' | b']' | b'{' | b'}'
    )
}

/// How many bytes a word has that begins here: up to a blank, a mark or the line's end. A mark alone has none.
fn word_length(line: &[u8], start: usize) -> usize {
    between(line, start, line.len())
        .iter()
        .take_while(|byte| !ends_word(**byte))
        .count()
}

/// The line of a position, and a caret under the word there. What is said of it may follow, and then the line's end.
pub fn put_position_line(out: &mut Message, pen: Pen, ink: Ink, text: &[u8], position: Position) {
    let line = line_numbered(text, position.line.saturating_sub(1));
    let start = position.column.saturating_sub(1);
    let part = Span {
        start,
        length: word_length(line, start),
    };
    put_part(out, pen, ink, position.line, line, part)
}
