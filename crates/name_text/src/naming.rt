//! The name that a word is, after its sign.
ghost use Rattle.std.specs.Prelude.{◌≡◌, ◌∷◌, IfOk};
ghost use Rattle.ir_ast.specs.LocalKeys as keys;
ghost use Rattle.ir_tokens.specs.Names.{name_of};
ghost use Rattle.name_text.specs.Naming as spec;
ghost use Rattle.name_text.specs.declared.naming.Sigil.TheVariants as sigil;

use ir_ast::{key_of_digits, marked, needs_mark};
use ir_tokens::{Kind, TEXT_LIMIT, Token, read_tokens, unescaped};
use items::Items;
use std::alloc::{AllocError, Global};

/// The sign before a name.
#[derive(Clone, Copy)]
pub enum Sigil {
    /// `@`.
    Global,
    /// `%`, before the name or the number of a value or a block.
    Local,
    /// `%`, before the name of a type.
    Layout,
}

/// The key of a local name.
fn key_of_name(alloc: Global, name: Items<u8>) -> Result<Items<u8>, AllocError>
    ensures { IfOk result (λ key. key ≡ keys.key_of_name name) }
{
    if needs_mark(name.as_slice()) {
        Ok(Items::from_vec(marked(alloc, name.as_slice())?))
    } else {
        Ok(name)
    }
}

/// The key of the number of a value or a block without a name.
fn key_of_number(alloc: Global, digits: &[u8]) -> Result<Items<u8>, AllocError>
    ensures { IfOk result (λ key. key ≡ keys.key_of_digits digits.now) }
{
    Items::from_slice(alloc, key_of_digits(digits))
}

fn name_of_token(
    alloc: Global,
    sign: Sigil,
    word: &[u8],
    token: Token,
) -> Result<Option<Items<u8>>, AllocError>
    ensures { IfOk result (λ name. name ≡ spec.name_by sign token.kind (name_of word.now token)) }
{
    match (sign, token.kind) {
        (Sigil::Global, Kind::GlobalName) => Ok(Some(unescaped(alloc, word, token)?)),
        (Sigil::Layout, Kind::LocalName) => Ok(Some(unescaped(alloc, word, token)?)),
        (Sigil::Local, Kind::LocalName) => {
            let name = unescaped(alloc, word, token)?;
            Ok(Some(key_of_name(alloc, name)?))
        }
        (Sigil::Local, Kind::LocalNumber) => {
            let digits = unescaped(alloc, word, token)?;
            Ok(Some(key_of_number(alloc, digits.as_slice())?))
        }
        _ => Ok(None),
    }
}

fn name_of_tokens(
    alloc: Global,
    sign: Sigil,
    word: &[u8],
    bad: Option<u32>,
    tokens: &[Token],
) -> Result<Option<Items<u8>>, AllocError>
    ensures { IfOk result (λ name. name ≡ spec.name_from sign word.now bad tokens.now) }
{
    if bad.is_some() {
        return Ok(None);
    }
    match tokens {
        [token] => {
            if token.length as usize == word.len() {
                name_of_token(alloc, sign, word, *token)
            } else {
                Ok(None)
            }
        }
        _ => Ok(None),
    }
}

/// The name with this sign that a word is, as it is looked up.
pub fn name_in(alloc: Global, sign: Sigil, word: &[u8]) -> Result<Option<Items<u8>>, AllocError>
    ensures { IfOk result (λ name. name ≡ spec.name_in sign word.now) }
{
    if word.len() > TEXT_LIMIT {
        return Ok(None);
    }
    let lexed = read_tokens(alloc, word)?;
    name_of_tokens(alloc, sign, word, lexed.bad, lexed.tokens.as_slice())
}

/// The name of a layout's type that a word is, without its sign.
pub fn layout_name_in(alloc: Global, word: &[u8]) -> Result<Option<Items<u8>>, AllocError>
    ensures { IfOk result (λ name. name ≡ spec.name_in sigil.Layout (37 ∷ word.now)) }
{
    let mut text = Vec::new(alloc);
    text.push(b'%')?;
    text.extend_from_slice(word)?;
    name_in(alloc, Sigil::Layout, text.as_slice())
}
