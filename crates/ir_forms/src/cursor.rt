//! A place among the tokens of a text.
ghost use Rattle.std.specs.Prelude.{◌≡◌, ◌≢◌, true, false, ◌<◌, ◌^◌, length, take, drop, is_some, IfOk, IfSome};
ghost use Rattle.ir_forms.specs.Cursor as spec;

use crate::fault::Fault;
use crate::float_numbers::{is_float_number, run_of};
use ir_ast::{key_of_digits, marked, needs_mark};
use ir_tokens::{Kind, Token, plain_name, unescaped};
use items::Items;
use std::alloc::{AllocError, Global};
use std::marker::Model;

/// The tokens of a text from the next one on.
#[derive(Drop)]
pub struct Cursor<'a> {
    text: &'a [u8],
    rest: &'a [Token],
    bad: Option<u32>,
    /// Where the text ends.
    end: u32,
    /// Whether the wide forms may stand.
    wide: bool,
}

impl<'a> Model for Cursor<'a> {
    ghost use Rattle.ir_forms.specs.Place.{Place};

    ghost Value = { Place };

    ghost use Rattle.ir_forms.specs.View.{place_of, IsWithinText};

    ghost view = { place_of };

    ghost invariant = { IsWithinText };
}

#[tactic(auto, unfolding(crate::specs::Cursor::same_kind))]
pub fn same_kind(a: Kind, b: Kind) -> bool
    ensures { result ≡ spec.same_kind a b }
{
    a == b
}

/// The bytes after the first `count`.
fn afterwards(bytes: &[u8], count: usize) -> &[u8]
    ensures { result.now ≡ drop count bytes.now }
{
    if count < bytes.len() {
        &bytes[count..]
    } else {
        &[]
    }
}

/// The first `count` bytes, or all if there are fewer.
fn front(bytes: &[u8], count: usize) -> &[u8]
    ensures { result.now ≡ take count bytes.now }
{
    if count < bytes.len() {
        &bytes[..count]
    } else {
        bytes
    }
}

/// Whether no form goes on from a token of this kind on: it is a plus where the wide forms may not stand.
#[inline(always)]
fn is_stop(wide: bool, kind: Kind) -> bool
    ensures { result ≡ spec.is_stop wide kind }
{
    matches!(kind, Kind::Plus) && !wide
}

/// The tokens that are seen: none from such a token on.
#[inline(always)]
fn here(wide: bool, tokens: &[Token]) -> &[Token]
    ensures { result.now ≡ spec.here wide tokens.now }
{
    match tokens {
        [] => tokens,
        [token, ..] => {
            if is_stop(wide, token.kind) {
                &[]
            } else {
                tokens
            }
        }
    }
}

/// The tokens from the first one on that begins at this place or later.
fn begun_at(place: usize, mut tokens: &[Token]) -> &[Token]
    ensures { result.now ≡ spec.begun_at place tokens.entry.now }
{
    while let [token, rest @ ..] = tokens {
        if token.start as usize >= place {
            return tokens;
        }
        tokens = rest;
    }
    tokens
}

/// The tokens after the first one.
fn rest_of(tokens: &[Token]) -> &[Token]
    ensures { result.now ≡ spec.rest_of tokens.now }
{
    match tokens {
        [_, rest @ ..] => rest,
        [] => tokens,
    }
}

impl<'a> Cursor<'a> {
    /// Before the first token. `bad` is the place after the tokens at which no token begins, if there is one. The wide forms may stand
    /// in the text or not.
    pub fn new(text: &'a [u8], tokens: &'a [Token], bad: Option<u32>, wide: bool) -> Cursor<'a>
        requires { length text.now < 2 ^ 32 }
        ensures { result ≡ record { text = text.now; rest = tokens.now; bad = bad; wide = wide } }
    {
        Cursor {
            text,
            rest: tokens,
            bad,
            end: text.len() as u32,
            wide,
        }
    }

    /// How many tokens are left.
    pub fn left(&self) -> usize
        ensures count { result ≡ length self.now.rest }
        ensures within { result < 2 ^ 63 }
    {
        self.rest.len()
    }

    /// What the next token is.
    #[tactic(auto, unfolding(crate::specs::Cursor::kind))]
    pub fn kind(&self) -> Kind
        ensures { result ≡ spec.kind self.now }
    {
        match here(self.wide, self.rest) {
            [token, ..] => token.kind,
            [] => Kind::End,
        }
    }

    /// What the token after the next one is.
    #[tactic(auto, unfolding(crate::specs::Cursor::kind_after))]
    pub fn kind_after(&self) -> Kind
        ensures { result ≡ spec.kind_after self.now }
    {
        match here(self.wide, rest_of(self.rest)) {
            [token, ..] => token.kind,
            [] => Kind::End,
        }
    }

    /// What the third token is.
    #[tactic(auto, unfolding(crate::specs::Cursor::kind_third))]
    pub fn kind_third(&self) -> Kind
        ensures { result ≡ spec.kind_third self.now }
    {
        match here(self.wide, rest_of(rest_of(self.rest))) {
            [token, ..] => token.kind,
            [] => Kind::End,
        }
    }

    /// Whether the next token is the first one on its line.
    #[tactic(auto, unfolding(crate::specs::Cursor::begins_line))]
    pub fn begins_line(&self) -> bool
        ensures { result ≡ spec.begins_line self.now }
    {
        match here(self.wide, self.rest) {
            [token, ..] => token.begins_line,
            [] => false,
        }
    }

    #[tactic(auto, unfolding(crate::specs::Cursor::sees))]
    pub fn sees(&self, kind: Kind) -> bool
        ensures { result ≡ spec.sees kind self.now }
    {
        same_kind(self.kind(), kind)
    }

    /// Where the next token begins; after the last token, where the text ends.
    #[tactic(auto, unfolding(crate::specs::Cursor::start))]
    pub fn start(&self) -> u32
        ensures { result ≡ spec.start self.now }
    {
        match here(self.wide, self.rest) {
            [token, ..] => token.start,
            [] => self.end,
        }
    }

    /// How many bytes spell the next token.
    #[tactic(auto, unfolding(crate::specs::Cursor::size))]
    pub fn size(&self) -> u32
        ensures { result ≡ spec.size self.now }
    {
        match here(self.wide, self.rest) {
            [token, ..] => token.length,
            [] => 0,
        }
    }

    /// The bytes that spell the next token.
    #[tactic(auto, unfolding(crate::specs::Cursor::spelling))]
    pub fn spelling(&self) -> &[u8]
        ensures { result.now ≡ spec.spelling self.now }
    {
        front(
            afterwards(self.text, self.start() as usize),
            self.size() as usize,
        )
    }

    /// Goes on to the next token.
    #[tactic(auto, unfolding(crate::specs::Cursor::next))]
    pub fn skip(&mut self)
        ensures { self.new ≡ spec.next self.old }
    {
        if let [_, rest @ ..] = self.rest {
            self.rest = rest;
        }
    }

    /// The place after the next token.
    #[tactic(auto, unfolding(crate::specs::Cursor::next))]
    pub fn after(&self) -> Cursor<'a>
        ensures { result ≡ spec.next self.now }
    {
        Cursor {
            text: self.text,
            rest: rest_of(self.rest),
            bad: self.bad,
            end: self.end,
            wide: self.wide,
        }
    }

    /// Where no token begins, if there is such a place: at the next token where no form goes on from it on, and else at the bad byte
    /// after the tokens.
    #[tactic(auto, unfolding(crate::specs::Cursor::bad_here))]
    fn bad_here(&self) -> Option<u32>
        ensures { result ≡ spec.bad_here self.now }
    {
        match self.rest {
            [] => self.bad,
            [token, ..] => {
                if is_stop(self.wide, token.kind) {
                    Some(token.start)
                } else {
                    self.bad
                }
            }
        }
    }

    /// Whether there is a byte at which no token begins.
    pub fn is_bad(&self) -> bool
        ensures { result ≡ is_some (spec.bad_here self.now) }
    {
        self.bad_here().is_some()
    }

    /// The fault where the text ends.
    #[tactic(auto, unfolding(crate::specs::Cursor::at_end))]
    pub fn at_end(&self) -> Fault
        ensures { result ≡ spec.at_end self.now }
    {
        match self.bad_here() {
            Some(bad) => Fault::BadByte(bad),
            None => Fault::Unfinished(self.end),
        }
    }

    /// The fault of the next token where it begins a form that is left out.
    #[tactic(auto, unfolding(crate::specs::Cursor::left_out))]
    pub fn left_out(&self) -> Fault
        ensures { result ≡ spec.left_out self.now }
    {
        Fault::LeftOut {
            start: self.start(),
            length: self.size(),
        }
    }

    /// The fault of the next token where no form goes on with it, or where one would that is not read yet.
    #[tactic(auto, unfolding(crate::specs::Cursor::refused))]
    pub fn refuse(&self, unread: bool) -> Fault
        ensures { result ≡ spec.refused unread self.now }
    {
        if self.sees(Kind::End) {
            self.at_end()
        } else if unread || self.sees(Kind::LeftOut) {
            self.left_out()
        } else {
            Fault::Unexpected(self.start())
        }
    }
}

impl<'a> Cursor<'a> {
    /// The bytes from the next token on that belong to one number.
    #[tactic(auto, unfolding(crate::specs::Cursor::run))]
    pub fn run(&self) -> &[u8]
        ensures { result.now ≡ spec.run self.now }
    {
        run_of(afterwards(self.text, self.start() as usize))
    }

    /// Whether those bytes are a floating point number.
    #[tactic(auto, unfolding(crate::specs::Cursor::sees_float))]
    pub fn sees_float(&self) -> bool
        ensures { result ≡ spec.sees_float self.now }
    {
        is_float_number(self.run())
    }

    /// Goes on to what follows those bytes.
    #[tactic(auto, unfolding(crate::specs::Cursor::past_run))]
    pub fn skip_run(&mut self)
        ensures { self.new ≡ spec.past_run self.old }
    {
        let end = self.start() as usize + self.run().len();
        self.rest = begun_at(end, self.rest);
    }
}

/// Whether the token is a number in place of a local name.
fn is_local_number(kind: Kind) -> bool
    ensures { result ≡ spec.is_local_number kind }
{
    matches!(kind, Kind::LocalNumber | Kind::LabelNumber)
}

impl<'a> Cursor<'a> {
    /// What follows the first byte that spells the next token.
    #[tactic(auto, unfolding(crate::specs::Cursor::name))]
    pub fn name(&self) -> &[u8]
        ensures { result.now ≡ spec.name self.now }
    {
        afterwards(self.spelling(), 1)
    }

    /// What follows the first byte that spells the third token.
    #[tactic(auto, unfolding(crate::specs::Cursor::name_third, crate::specs::Cursor::name, crate::specs::Cursor::spelling, crate::specs::Cursor::size, crate::specs::Cursor::start, crate::specs::Cursor::next))]
    pub fn name_third(&self) -> &[u8]
        ensures { result.now ≡ spec.name_third self.now }
    {
        match here(self.wide, rest_of(rest_of(self.rest))) {
            [token, ..] => {
                let bytes = afterwards(self.text, token.start as usize);
                afterwards(front(bytes, token.length as usize), 1)
            }
            [] => &[],
        }
    }

    /// What the next token spells, without its sign and its quotes, where it has no escapes.
    #[tactic(auto, unfolding(crate::specs::Cursor::spelled))]
    pub fn borrowed(&self) -> Option<&[u8]>
        ensures { IfSome result (λ name. name.now ≡ spec.spelled self.now) }
    {
        match self.rest {
            [token, ..] => plain_name(self.text, *token),
            [] => None,
        }
    }

    /// What the next token spells, without its sign, its quotes and its escapes.
    #[tactic(auto, unfolding(crate::specs::Cursor::spelled))]
    pub fn spelled(&self, alloc: Global) -> Result<Items<u8>, AllocError>
        ensures { IfOk result (λ name. name ≡ spec.spelled self.now) }
    {
        match self.rest {
            [token, ..] => unescaped(alloc, self.text, *token),
            [] => Ok(Items::new(alloc)),
        }
    }

    /// The key of the next token as a local name, where the text has it as it is.
    #[tactic(auto, unfolding(crate::specs::Cursor::local_key))]
    pub fn borrowed_key(&self) -> Option<&[u8]>
        ensures { IfSome result (λ key. key.now ≡ spec.local_key self.now) }
    {
        match self.borrowed() {
            Some(name) => {
                if is_local_number(self.kind()) {
                    Some(key_of_digits(name))
                } else if needs_mark(name) {
                    None
                } else {
                    Some(name)
                }
            }
            None => None,
        }
    }

    /// The key of the next token as a local name.
    #[tactic(auto, unfolding(crate::specs::Cursor::local_key))]
    pub fn local_key(&self, alloc: Global) -> Result<Vec<u8>, AllocError>
        ensures { IfOk result (λ key. key.items ≡ spec.local_key self.now) }
    {
        let name = self.spelled(alloc)?;
        if is_local_number(self.kind()) {
            Vec::from_slice(alloc, key_of_digits(name.as_slice()))
        } else if needs_mark(name.as_slice()) {
            marked(alloc, name.as_slice())
        } else {
            Vec::from_slice(alloc, name.as_slice())
        }
    }
}
