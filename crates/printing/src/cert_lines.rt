//! Where a line is in the text of a certificate.
use crate::texts::Texts;
use crate::told::{put_block, put_symbol, put_value};
use diagnosis::Sought;
use ir_ast::Function;
use ir_tokens::Position;
use messages::{CertLine, Message, cert_place};
use std::alloc::AllocError;

/// A line of a certificate, by its words.
fn line_of(sought: &Sought) -> CertLine {
    match sought {
        Sought::Function => CertLine::Mark,
        Sought::Param(_) => CertLine::Parameter,
        Sought::Result => CertLine::Result,
        Sought::Block(_) => CertLine::Block,
        Sought::Claim(_, number) => CertLine::Claim(*number),
    }
}

/// The name that the line has, or its block.
fn put_name(out: &mut Message, function: &Function, sought: &Sought) {
    match sought {
        Sought::Param(value) => put_value(out, function, *value),
        Sought::Block(block) | Sought::Claim(block, _) => put_block(out, function, *block),
        _ => {}
    }
}

/// How many blanks a text begins with.
fn blanks(text: &[u8]) -> usize {
    text.iter()
        .take_while(|byte| matches!(**byte, b' ' | b'\t'))
        .count()
}

/// The position of the first word after a place of a text.
fn position_of(text: &[u8], place: usize) -> Position {
    let rest = text.get(place..).unwrap_or(&[]);
    let word = place.saturating_add(blanks(rest));
    Position::after(text.get(..word).unwrap_or(text))
}

/// Where a line of the certificate of a function is, if it is spelled as it would be printed.
pub(crate) fn cert_position(
    texts: &Texts,
    function: &Function,
    sought: &Sought,
) -> Result<Option<Position>, AllocError> {
    let text = texts.certificate.text;
    let mut of_function = Message::new(texts.pen.alloc);
    put_symbol(&mut of_function, texts.program.module(), function.symbol);
    let of_function = of_function.finish()?;
    let mut name = Message::new(texts.pen.alloc);
    put_name(&mut name, function, sought);
    let name = name.finish()?;
    match cert_place(
        text,
        of_function.as_slice(),
        name.as_slice(),
        line_of(sought),
    ) {
        Some(place) => Ok(Some(position_of(text, place))),
        None => Ok(None),
    }
}
