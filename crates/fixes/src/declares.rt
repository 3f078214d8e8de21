//! A function of the runtime, or one of LLVM's functions of numbers, that is called and not declared.
use crate::places::between;
use ir_ast::Runtime;
use ir_tokens::{TEXT_LIMIT, Token, read_tokens};
use messages::{Change, Pointers, declare_change};
use name_text::{Sigil, name_in};
use std::alloc::{AllocError, Global};

/// The function that a token names, if it is one of the runtime or of numbers.
fn runtime_at(alloc: Global, text: &[u8], token: &Token) -> Result<Option<Runtime>, AllocError> {
    let start = token.start as usize;
    let spelled = between(text, start, start.saturating_add(token.length as usize));
    match name_in(alloc, Sigil::Global, spelled)? {
        Some(name) => Ok(Runtime::of(name.as_slice())),
        None => Ok(None),
    }
}

/// The line that declares the function which a token at this place names.
fn declare_among(
    alloc: Global,
    text: &[u8],
    tokens: &[Token],
    place: usize,
) -> Result<Option<Change>, AllocError> {
    for token in tokens {
        if token.start as usize == place {
            return match runtime_at(alloc, text, token)? {
                Some(runtime) => {
                    let pointers = Pointers::of_tokens(tokens);
                    Ok(Some(declare_change(alloc, tokens, &runtime, pointers)?))
                }
                None => Ok(None),
            };
        }
    }
    Ok(None)
}

/// The line that declares the function of the runtime, or of numbers, that is named at a place of a module's text. It comes in front of
/// the functions.
pub fn missing_declare(
    alloc: Global,
    text: &[u8],
    place: usize,
) -> Result<Option<Change>, AllocError> {
    if text.len() > TEXT_LIMIT {
        return Ok(None);
    }
    let lexed = read_tokens(alloc, text)?;
    let change = declare_among(alloc, text, lexed.tokens.as_slice(), place);
    drop(lexed);
    change
}
