//! Which names of a table have a hash.
ghost use Rattle.std.specs.Prelude.{◌≡◌, ◌<◌, ◌≤◌, ◌^◌, ℕ, suc, true, length, IfOk, IfSome, OnOk};
ghost use Rattle.std.specs.List.{AllByRecursion};
ghost use Rattle.std.specs.Vec.{vec_len, vec_capacity};
ghost use Rattle.lemmas.specs.Lists.{IsIn};
ghost use Rattle.ir_ast.specs.Links.{hash_by, head_place, text_of, texts_of, IsWithin, listed, first_named, AreListed, AreNames};
ghost use Rattle.ir_ast.specs.Names.{place_of};

use crate::hash_key::HashKey;
use std::alloc::{AllocError, Global};
use std::hash::{BuildHasher, Hasher};

/// What stands in place of a number where no name comes before. The last name of a table of 2^32 names has this number too. A walk that
/// comes to it goes on from there, and compares the text of each name that it meets.
const NO_NAME: u32 = 0xffff_ffff;

/// How many heads a table begins with.
const FIRST_HEADS: usize = 16;

/// Where a name stands in the bytes of its table.
#[derive(Clone, Copy)]
pub(crate) struct Span {
    pub(crate) start: usize,
    pub(crate) end: usize,
}

/// The text at a span.
pub(crate) fn text_at(bytes: &[u8], span: Span) -> &[u8]
    requires { IsWithin bytes.now span }
    ensures { result.now ≡ text_of bytes.now span }
{
    &bytes[span.start..span.end]
}

/// Numbers of names by the hashes of their texts. A hash leads to a head, which has the newest of its names.
#[derive(Drop)]
pub(crate) struct Links {
    pub(crate) key: HashKey,
    /// The key to hash by from the next new name on, where it is another one.
    pub(crate) next_key: Option<HashKey>,
    heads: Vec<u32>,
    /// For each name the one before it that has its head.
    befores: Vec<u32>,
}

/// The head that a hash leads to.
fn head_place(hash: u64, count: usize) -> usize
    ensures { result ≡ head_place hash count }
{
    hash as usize & count.saturating_sub(1)
}

impl Links {
    /// No name is there, and no head.
    pub(crate) fn new(alloc: Global, key: HashKey) -> Self
        ensures { length result.befores.items ≡ 0 }
    {
        Links {
            key,
            next_key: None,
            heads: Vec::new(alloc),
            befores: Vec::new(alloc),
        }
    }

    /// No name is there, but room for `names` names and a table of `heads` heads.
    fn with_heads(
        alloc: Global,
        key: HashKey,
        heads: usize,
        names: usize,
    ) -> Result<Links, AllocError>
        ensures heads { IfOk result (λ links. length links.heads.items ≡ heads) }
        ensures empty { IfOk result (λ links. length links.befores.items ≡ 0) }
        ensures room { IfOk result (λ links. names ≤ vec_capacity links.befores) }
    {
        let befores = Vec::with_capacity(alloc, names)?;
        let heads = vec![in alloc; NO_NAME; heads]?;
        Ok(Links {
            key,
            next_key: None,
            heads,
            befores,
        })
    }

    /// The hash of a text.
    #[inline(always)]
    pub(crate) fn hash_of(&self, text: &[u8]) -> u64
        ensures { result ≡ hash_by self.now.key text.now }
    {
        let mut state = self.key.build_hasher();
        state.write(text);
        state.finish()
    }

    /// The first name that is this text, of those that the hash leads to.
    #[inline(always)]
    fn first_named(&self, bytes: &[u8], spans: &[Span], text: &[u8], hash: u64) -> Option<usize>
        requires within { AllByRecursion (IsWithin bytes.now) spans.now }
        requires one_each { length self.now.befores.items ≡ length spans.now }
        ensures { result ≡ first_named text.now (texts_of bytes.now spans.now) (listed self.now.heads.items self.now.befores.items hash) }
    {
        let Some(head) = self.heads.get(head_place(hash, self.heads.len())) else {
            return None;
        };
        let mut number = *head as usize;
        for _step in 0..self.befores.len() {
            let Some(before) = self.befores.get(number) else {
                return None;
            };
            if text == text_at(bytes, spans[number]) {
                return Some(number);
            }
            number = *before as usize;
        }
        None
    }

    /// The number of the name that is this text, which has this hash.
    #[inline(always)]
    pub(crate) fn find(&self, bytes: &[u8], spans: &[Span], text: &[u8], hash: u64) -> Option<usize>
        requires names { AreNames bytes.now spans.now self.now }
        requires hash { hash ≡ hash_by self.now.key text.now }
        ensures place { result ≡ place_of text.now (texts_of bytes.now spans.now) }
        ensures limit { IfSome result (λ number. number < 2 ^ 32) }
    {
        self.first_named(bytes, spans, text, hash)
    }

    /// The next name has this hash.
    pub(crate) fn add(&mut self, hash: u64, number: u32)
        requires number { number ≡ length self.old.befores.items }
        requires heads { 0 < length self.old.heads.items }
        requires room { vec_len self.old.befores < vec_capacity self.old.befores }
        ensures key { self.new.key ≡ self.old.key }
        ensures heads { length self.new.heads.items ≡ length self.old.heads.items }
        ensures room { vec_capacity self.new.befores ≡ vec_capacity self.old.befores }
        ensures one_more { length self.new.befores.items ≡ suc (length self.old.befores.items) }
        ensures kept { (other u : ℕ) → IsIn u (listed self.old.heads.items self.old.befores.items other) → IsIn u (listed self.new.heads.items self.new.befores.items other) }
        ensures added { IsIn number (listed self.new.heads.items self.new.befores.items hash) }
    {
        let place = head_place(hash, self.heads.len());
        self.befores.push_reserved(self.heads[place]);
        self.heads[place] = number;
    }

    /// Whether a name may be added to `count` names without a new table of heads.
    fn is_ready(&self, count: usize) -> bool
        ensures { result ≡ true → 0 < length self.now.heads.items }
    {
        self.next_key.is_none() && count < self.heads.len()
    }

    /// The same names by the key that is set, with more heads where these are few.
    fn linked_again(&self, alloc: Global, bytes: &[u8], spans: &[Span]) -> Result<Links, AllocError>
        requires within { AllByRecursion (IsWithin bytes.now) spans.now }
        requires limit { length spans.now ≤ 2 ^ 32 }
        ensures heads { IfOk result (λ links. 0 < length links.heads.items) }
        ensures one_each { IfOk result (λ links. length links.befores.items ≡ length spans.now) }
        ensures listed { IfOk result (λ links. AreListed links (texts_of bytes.now spans.now)) }
    {
        let few = self.heads.len() <= spans.len();
        let heads = if few {
            self.heads.len().saturating_mul(2)
        } else {
            self.heads.len()
        };
        let heads = heads.max(FIRST_HEADS);
        let key = self.next_key.unwrap_or(self.key);
        let mut links = Links::with_heads(alloc, key, heads, heads.max(spans.len()))?;
        for number in 0..spans.len() {
            let hash = links.hash_of(text_at(bytes, spans[number]));
            links.add(hash, number as u32);
        }
        Ok(links)
    }

    /// Takes room for one name more. The hash of its text by the key of the table from then on.
    pub(crate) fn make_room(
        &mut self,
        alloc: Global,
        bytes: &[u8],
        spans: &[Span],
        text: &[u8],
        hash: u64,
    ) -> Result<u64, AllocError>
        requires within { AllByRecursion (IsWithin bytes.now) spans.now }
        requires limit { length spans.now ≤ 2 ^ 32 }
        requires one_each { length self.old.befores.items ≡ length spans.now }
        requires listed { AreListed self.old (texts_of bytes.now spans.now) }
        requires hash { hash ≡ hash_by self.old.key text.now }
        ensures one_each { length self.new.befores.items ≡ length spans.now }
        ensures listed { AreListed self.new (texts_of bytes.now spans.now) }
        ensures heads { OnOk result (0 < length self.new.heads.items) }
        ensures room { OnOk result (vec_len self.new.befores < vec_capacity self.new.befores) }
        ensures hash { IfOk result (λ hash. hash ≡ hash_by self.new.key text.now) }
    {
        if self.is_ready(spans.len()) {
            self.befores.reserve(1)?;
            return Ok(hash);
        }
        let mut links = self.linked_again(alloc, bytes, spans)?;
        links.befores.reserve(1)?;
        *self = links;
        Ok(self.hash_of(text))
    }
}
