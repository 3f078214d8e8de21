//! Bytes to tokens.
ghost use Rattle.std.specs.Prelude.{◌≡◌, ◌≤◌, ◌<◌, ◌-◌, ◌==◌, ◌||◌, [], length, true, false, IfOk};
ghost use Rattle.ir_tokens.specs.Bytes.{shown};
ghost use Rattle.ir_tokens.specs.Form as form;
ghost use Rattle.ir_tokens.specs.Tokens as spec;
ghost use Rattle.ir_tokens.specs.Tokens.{IsLexed, lexed_of, ends_line, before, is_blank};
ghost use Rattle.ir_tokens.specs.declared.lexed.Lexed.{Lexed as ALexed};

use crate::bytes::{digit_len, name_len, past_quoted};
use crate::class::{ByteClass, first_class};
use crate::keyword::word_kind;
use crate::lexed::Lexed;
use crate::token::{Kind, Token};
use items::Items;
use std::alloc::{AllocError, Global};

/// How many bytes are read as tokens at most. A caller looks at a longer text up to here alone, or not at all.
pub const TEXT_LIMIT: usize = 16_777_216;

/// The kind of the token at the front of some bytes, and the bytes after it.
type Spelled<'a> = Option<(Kind, &'a [u8])>;

fn name(kind: Kind, bytes: &[u8]) -> Spelled<'_>
    ensures { shown (λ x. (x.0, x.1.now)) result ≡ (spec.name kind).read bytes.now }
{
    Some((kind, &bytes[name_len(bytes)..]))
}

fn digits(kind: Kind, bytes: &[u8]) -> Spelled<'_>
    ensures { shown (λ x. (x.0, x.1.now)) result ≡ (spec.digits kind).read bytes.now }
{
    Some((kind, &bytes[digit_len(bytes)..]))
}

/// The rest of a text in quotes, from its first quote on.
fn quotation(kind: Kind, bytes: &[u8]) -> Spelled<'_>
    requires { 0 < length bytes.now }
    ensures { shown (λ x. (x.0, x.1.now)) result ≡ (spec.quotation kind).read bytes.now }
{
    let rest = past_quoted(&bytes[1..])?;
    Some((kind, rest))
}

fn sign(kind: Kind, bytes: &[u8]) -> Spelled<'_>
    requires { 0 < length bytes.now }
    ensures { shown (λ x. (x.0, x.1.now)) result ≡ (spec.sign kind).read bytes.now }
{
    Some((kind, &bytes[1..]))
}

#[tactic(auto, unfolding(crate::specs::Tokens::local))]
fn local(bytes: &[u8]) -> Spelled<'_>
    requires { 0 < length bytes.now }
    ensures { shown (λ x. (x.0, x.1.now)) result ≡ spec.local.read bytes.now }
{
    let bytes = &bytes[1..];
    match first_class(bytes) {
        ByteClass::Quote => quotation(Kind::LocalName, bytes),
        ByteClass::Letter => name(Kind::LocalName, bytes),
        ByteClass::Digit => digits(Kind::LocalNumber, bytes),
        _ => None,
    }
}

#[tactic(auto, unfolding(crate::specs::Tokens::global))]
fn global(bytes: &[u8]) -> Spelled<'_>
    requires { 0 < length bytes.now }
    ensures { shown (λ x. (x.0, x.1.now)) result ≡ spec.global.read bytes.now }
{
    let bytes = &bytes[1..];
    match first_class(bytes) {
        ByteClass::Quote => quotation(Kind::GlobalName, bytes),
        ByteClass::Letter => name(Kind::GlobalName, bytes),
        _ => None,
    }
}

/// Whether a plain name begins with `dbg_`.
fn is_record(name: &[u8]) -> bool
    ensures { result ≡ spec.is_record name.now }
{
    matches!(name, [b'd', b'b', b'g', b'_', ..])
}

/// The name of a debug record.
#[tactic(auto, unfolding(crate::specs::Tokens::record_name))]
fn record_name(bytes: &[u8]) -> Spelled<'_>
    ensures { shown (λ x. (x.0, x.1.now)) result ≡ spec.record_name.read bytes.now }
{
    let (name, rest) = bytes.split_at(name_len(bytes));
    if is_record(name) {
        Some((Kind::DebugRecord, rest))
    } else {
        None
    }
}

#[tactic(auto, unfolding(crate::specs::Tokens::group))]
fn group(bytes: &[u8]) -> Spelled<'_>
    requires { 0 < length bytes.now }
    ensures { shown (λ x. (x.0, x.1.now)) result ≡ spec.group.read bytes.now }
{
    let bytes = &bytes[1..];
    match first_class(bytes) {
        ByteClass::Digit => digits(Kind::AttributeGroup, bytes),
        ByteClass::Letter => record_name(bytes),
        _ => None,
    }
}

#[tactic(auto, unfolding(crate::specs::Tokens::metadata))]
fn metadata(bytes: &[u8]) -> Spelled<'_>
    requires { 0 < length bytes.now }
    ensures { shown (λ x. (x.0, x.1.now)) result ≡ spec.metadata.read bytes.now }
{
    let bytes = &bytes[1..];
    match first_class(bytes) {
        ByteClass::Letter => name(Kind::MetadataName, bytes),
        ByteClass::Digit => digits(Kind::MetadataNumber, bytes),
        _ => Some((Kind::Exclamation, bytes)),
    }
}

fn label_or(label: Kind, other: Kind, bytes: &[u8]) -> Spelled<'_>
    ensures { shown (λ x. (x.0, x.1.now)) result ≡ (form.look (spec.label_or label other)).read bytes.now }
{
    match first_class(bytes) {
        ByteClass::Colon => Some((label, &bytes[1..])),
        _ => Some((other, bytes)),
    }
}

#[tactic(auto, unfolding(crate::specs::Tokens::word))]
fn word(bytes: &[u8]) -> Spelled<'_>
    ensures { shown (λ x. (x.0, x.1.now)) result ≡ spec.word.read bytes.now }
{
    let (word, rest) = bytes.split_at(name_len(bytes));
    label_or(Kind::LabelName, word_kind(word), rest)
}

#[tactic(auto, unfolding(crate::specs::Tokens::number))]
fn number(bytes: &[u8]) -> Spelled<'_>
    ensures { shown (λ x. (x.0, x.1.now)) result ≡ spec.number.read bytes.now }
{
    label_or(Kind::LabelNumber, Kind::Number, &bytes[digit_len(bytes)..])
}

#[tactic(auto, unfolding(crate::specs::Tokens::quote))]
fn quote(bytes: &[u8]) -> Spelled<'_>
    requires { 0 < length bytes.now }
    ensures { shown (λ x. (x.0, x.1.now)) result ≡ spec.quote.read bytes.now }
{
    let rest = past_quoted(&bytes[1..])?;
    label_or(Kind::LabelName, Kind::Quoted, rest)
}

#[tactic(auto, unfolding(crate::specs::Tokens::token))]
fn token(bytes: &[u8]) -> Spelled<'_>
    requires { 0 < length bytes.now }
    ensures { shown (λ x. (x.0, x.1.now)) result ≡ spec.token.read bytes.now }
{
    match first_class(bytes) {
        ByteClass::Letter => word(bytes),
        ByteClass::Digit => number(bytes),
        ByteClass::Quote => quote(bytes),
        ByteClass::Percent => local(bytes),
        ByteClass::At => global(bytes),
        ByteClass::Hash => group(bytes),
        ByteClass::Exclamation => metadata(bytes),
        ByteClass::Sign(kind) => sign(kind, bytes),
        _ => None,
    }
}

/// Whether a byte is blank, or begins a comment.
fn is_gap(byte: u8) -> bool
    ensures { result ≡ (byte == 59 || is_blank byte) }
{
    byte <= b';' && matches!(byte, b';' | b' ' | b'\t' | b'\n' | b'\r')
}

/// The bytes from the next one on that is neither blank nor in a comment, and whether a line ends before it. Mostly no byte or one
/// space is before it.
#[inline(always)]
#[tactic(auto, unfolding(crate::specs::Tokens::past_gap))]
fn past_gap(bytes: &[u8]) -> (&[u8], bool)
    ensures value { result.0.now ≡ spec.past_gap false bytes.now }
    ensures within { length result.0.now ≤ length bytes.now }
    ensures ends { result.1 ≡ ends_line (before bytes.now (spec.past_gap false bytes.now)) }
{
    match bytes {
        [b' ', rest @ ..] => match rest {
            [second, ..] if !is_gap(*second) => (rest, false),
            _ => past_long_gap(bytes),
        },
        [first, ..] if !is_gap(*first) => (bytes, false),
        _ => past_long_gap(bytes),
    }
}

/// The same, byte by byte.
#[inline(never)]
#[tactic(auto, unfolding(crate::specs::Tokens::past_gap))]
fn past_long_gap(bytes: &[u8]) -> (&[u8], bool)
    ensures value { result.0.now ≡ spec.past_gap false bytes.now }
    ensures within { length result.0.now ≤ length bytes.now }
    ensures ends { result.1 ≡ ends_line (before bytes.now (spec.past_gap false bytes.now)) }
{
    let mut is_comment = false;
    let mut ends = false;
    for (i, byte) in bytes.iter().enumerate() {
        if *byte == b'\n' {
            ends = true;
            is_comment = false;
        } else if !is_comment {
            if *byte == b';' {
                is_comment = true;
            } else if !matches!(*byte, b' ' | b'\t' | b'\r') {
                return (&bytes[i..], ends);
            }
        }
    }
    (&[], ends)
}

fn lex(alloc: Global, bytes: &[u8]) -> Result<Lexed, AllocError>
    requires { length bytes.now ≤ TEXT_LIMIT }
    ensures { IfOk result (λ lexed. lexed ≡ lexed_of bytes.now) }
{
    let mut tokens = Items::new(alloc);
    let mut rest = bytes;
    let mut is_first = true;
    for _turn in 0..bytes.len() {
        let (at, ends) = past_gap(rest);
        if at.is_empty() {
            return Ok(Lexed { tokens, bad: None });
        }
        let begins_line = is_first || ends;
        let start = bytes.len().saturating_sub(at.len()) as u32;
        let Some((kind, after)) = token(at) else {
            return Ok(Lexed {
                tokens,
                bad: Some(start),
            });
        };
        let end = bytes.len().saturating_sub(after.len()) as u32;
        tokens.push(Token {
            kind,
            begins_line,
            start,
            length: end.saturating_sub(start),
        })?;
        rest = after;
        is_first = false;
    }
    let (at, _) = past_gap(rest);
    let bad = if at.is_empty() {
        None
    } else {
        Some(bytes.len().saturating_sub(at.len()) as u32)
    };
    Ok(Lexed { tokens, bad })
}

/// The tokens of a text. Where the bytes begin no token at some place, those before the first such place.
pub fn read_tokens(alloc: Global, bytes: &[u8]) -> Result<Lexed, AllocError>
    requires { length bytes.now ≤ TEXT_LIMIT }
    ensures found { IfOk result (IsLexed bytes.now) }
    ensures only { (lexed : ALexed) → IsLexed bytes.now lexed → IfOk result (λ found. found ≡ lexed) }
{
    lex(alloc, bytes)
}
