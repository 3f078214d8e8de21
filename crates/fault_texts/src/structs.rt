//! Where the structs of a module are defined in its text.
use crate::near::spelled;
use ir_tokens::{Kind, Position, Token};

fn kind_at(tokens: &[Token], at: usize) -> Kind {
    match tokens.get(at) {
        Some(token) => token.kind,
        None => Kind::End,
    }
}

/// Whether the definition of a struct begins at a token: `%T = type`.
fn begins_struct(tokens: &[Token], at: usize) -> bool {
    matches!(
        (
            kind_at(tokens, at),
            kind_at(tokens, at.saturating_add(1)),
            kind_at(tokens, at.saturating_add(2)),
        ),
        (Kind::LocalName, Kind::Equals, Kind::Type)
    )
}

/// The token at which the struct with this number is defined, counted from 0.
fn struct_token(tokens: &[Token], number: usize) -> Option<Token> {
    let mut left = number;
    for (at, token) in tokens.iter().enumerate() {
        if begins_struct(tokens, at) {
            if left == 0 {
                return Some(*token);
            }
            left = left.saturating_sub(1);
        }
    }
    None
}

/// Where the struct with this number is defined, counted from 0.
pub fn struct_position(text: &[u8], tokens: &[Token], number: usize) -> Option<Position> {
    let token = struct_token(tokens, number)?;
    Some(Position::of(text, token.start))
}

/// The name of the struct with this number, with its sign.
pub fn struct_name<'a>(text: &'a [u8], tokens: &[Token], number: usize) -> &'a [u8] {
    match struct_token(tokens, number) {
        Some(token) => spelled(text, &token),
        None => b"a struct",
    }
}
