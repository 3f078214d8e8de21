//! The names that tokens spell.
ghost use Rattle.std.specs.Prelude.{◌≡◌, ◌≤◌, ◌-◌, ◌+◌, ◌↔◌, length, take, drop, true, false, IfOk, IfSome, IsNone, IsTrue};
ghost use Rattle.std.specs.List.{list_any};
ghost use Rattle.ir_tokens.specs.Names as spec;
ghost use Rattle.ir_tokens.specs.Names.{name_of};

use crate::bytes::next;
use crate::token::{Kind, Token};
use items::Items;
use std::alloc::{AllocError, Global};

/// The first `len` bytes, or all if there are fewer.
pub fn front(bytes: &[u8], len: usize) -> &[u8]
    ensures { result.now ≡ take len bytes.now }
{
    &bytes[..len.min(bytes.len())]
}

/// The bytes after the first `len`, if any.
fn afterwards(bytes: &[u8], len: usize) -> &[u8]
    ensures { result.now ≡ drop len bytes.now }
{
    &bytes[len.min(bytes.len())..]
}

fn spelling(bytes: &[u8], token: Token) -> &[u8]
    ensures { result.now ≡ spec.spelling bytes.now token }
{
    front(
        afterwards(bytes, token.start as usize),
        token.length as usize,
    )
}

/// A spelling without its sign or its `:`.
fn bare(kind: Kind, spelling: &[u8]) -> &[u8]
    ensures { result.now ≡ spec.bare kind spelling.now }
{
    match kind {
        Kind::LocalName | Kind::LocalNumber | Kind::GlobalName => afterwards(spelling, 1),
        Kind::AttributeGroup | Kind::MetadataName | Kind::MetadataNumber => afterwards(spelling, 1),
        Kind::LabelName | Kind::LabelNumber => front(spelling, spelling.len().saturating_sub(1)),
        _ => spelling,
    }
}

fn begins_quote(spelling: &[u8]) -> bool
    ensures { result ≡ spec.begins_quote spelling.now }
{
    match spelling {
        [] => false,
        [first, ..] => *first == b'"',
    }
}

/// What is between two quotes.
fn inside(spelling: &[u8]) -> &[u8]
    ensures { result.now ≡ spec.inside spelling.now }
{
    front(afterwards(spelling, 1), spelling.len().saturating_sub(2))
}

/// Whether quoted text has to be read byte by byte.
fn has_special(bytes: &[u8]) -> bool
    ensures { result ≡ list_any spec.is_special bytes.now }
{
    bytes.iter().any(|byte| *byte == b'\\' || *byte == b'"')
}

fn unescaped_bytes(alloc: Global, bytes: &[u8]) -> Result<Items<u8>, AllocError>
    ensures { IfOk result (λ name. name ≡ spec.unescaped bytes.now) }
{
    let mut name = Items::new(alloc);
    let mut rest = bytes;
    for _turn in 0..bytes.len() {
        let Some((byte, after)) = next(rest) else {
            return Ok(name);
        };
        name.push(byte)?;
        rest = after;
    }
    Ok(name)
}

/// What a token spells, borrowed from the text: its name without a sign and without quotes. Nothing where it is written
/// with an escape.
pub fn plain_name(bytes: &[u8], token: Token) -> Option<&[u8]>
    ensures name { IfSome result (λ name. name.now ≡ name_of bytes.now token) }
    ensures escaped { IsNone result ↔ IsTrue (spec.has_escape (spec.bare token.kind (spec.spelling bytes.now token))) }
{
    let name = bare(token.kind, spelling(bytes, token));
    if !begins_quote(name) {
        return Some(name);
    }
    let name = inside(name);
    if has_special(name) { None } else { Some(name) }
}

/// What a token spells, without a sign, quotes and escapes.
pub fn unescaped(alloc: Global, bytes: &[u8], token: Token) -> Result<Items<u8>, AllocError>
    ensures { IfOk result (λ name. name ≡ name_of bytes.now token) }
{
    let name = bare(token.kind, spelling(bytes, token));
    if begins_quote(name) {
        unescaped_bytes(alloc, inside(name))
    } else {
        Items::from_slice(alloc, name)
    }
}
