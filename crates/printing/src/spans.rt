//! Where an operand is written in an instruction.
use crate::told::{Told, put_operand};
use diagnosis::Spot;
use ir_ast::{BlockId, Operand};
use ir_tokens::{Kind, Token};
use messages::Message;
use std::alloc::AllocError;

/// The number of the first token of the instruction after one, in its block or in the next one.
fn next_number(told: &Told, spot: &Spot) -> Option<usize> {
    let next = Spot {
        block: spot.block,
        place: spot.place.saturating_add(1),
    };
    let first = Spot {
        block: BlockId::new(spot.block.number().saturating_add(1)),
        place: 0,
    };
    match told.token_number(&next) {
        Some(number) => Some(number),
        None => told.token_number(&first),
    }
}

/// The tokens from an instruction up to the next one, or to the end of the text.
fn tokens_of<'a>(told: &Told<'a>, spot: &Spot) -> Option<&'a [Token]> {
    let tokens = told.texts.source.tokens;
    let first = told.token_number(spot)?;
    let after = next_number(told, spot).unwrap_or(tokens.len());
    tokens.get(first..after)
}

/// Whether the body of a function ends here.
fn ends_function(token: &Token) -> bool {
    token.begins_line && matches!(token.kind, Kind::CloseBrace)
}

fn is_spelled(text: &[u8], token: &Token, name: &[u8]) -> bool {
    let start = token.start as usize;
    let end = start.saturating_add(token.length as usize);
    match text.get(start..end) {
        Some(spelled) => spelled == name,
        None => false,
    }
}

/// The last of these tokens in a function that is spelled so.
fn last_spelled(text: &[u8], tokens: &[Token], name: &[u8]) -> Option<Token> {
    let mut found = None;
    for token in tokens {
        if ends_function(token) {
            return found;
        }
        if is_spelled(text, token, name) {
            found = Some(*token);
        }
    }
    found
}

/// The token of an operand in an instruction, or the first one of the instruction.
pub(crate) fn token_within(
    told: &Told,
    spot: &Spot,
    operand: Option<Operand>,
) -> Result<Option<Token>, AllocError> {
    let Some(tokens) = tokens_of(told, spot) else {
        return Ok(None);
    };
    let first = tokens.first().copied();
    let Some(operand) = operand else {
        return Ok(first);
    };
    let mut name = Message::new(told.texts.pen.alloc);
    put_operand(&mut name, told, operand);
    let name = name.finish()?;
    let found = last_spelled(told.texts.source.text, tokens, name.as_slice());
    drop(name);
    Ok(found.or(first))
}
