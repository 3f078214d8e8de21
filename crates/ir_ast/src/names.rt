ghost use Rattle.std.specs.Prelude.{◌≡◌, ◌<◌, ◌≤◌, ◌^◌, [], length, slice_get, None, OnOk, OnErr, IfOk, IfSome};
ghost use Rattle.std.specs.Option.{option_copied};
ghost use Rattle.ir_ast.specs.Names.{name_at, place_of, number_of, numbered};

use crate::hash_key::HashKey;
use crate::links::{Links, Span, text_at};
use std::alloc::{AllocError, Global};
use std::marker::Model;

/// How many names or types a table holds: each is numbered by a `u32`.
pub(crate) const TABLE_LIMIT: usize = 1 << 32;

/// Distinct names, numbered from 0 in the order in which they came. Their texts stand one after the other.
#[derive(Drop)]
pub struct Names {
    bytes: Vec<u8>,
    spans: Vec<Span>,
    links: Links,
}

impl Model for Names {
    ghost use Rattle.std.specs.Prelude.{List, ℕ};
    ghost use Rattle.ir_ast.specs.Links.{texts_of, AreNames};

    ghost Value = { List (List ℕ) };

    ghost view = { λ names. texts_of names.bytes.items names.spans.items };

    ghost invariant = { λ names. AreNames names.bytes.items names.spans.items names.links };
}

impl Names {
    pub fn new(alloc: Global, key: HashKey) -> Self
        ensures { result ≡ [] }
    {
        Names {
            bytes: Vec::new(alloc),
            spans: Vec::new(alloc),
            links: Links::new(alloc, key),
        }
    }

    /// The key by which a new name is hashed.
    pub fn key(&self) -> HashKey {
        self.links.next_key.unwrap_or(self.links.key)
    }

    /// Hashes by this key as soon as a name is new. A text that adds nothing leaves the table as it is.
    pub fn set_key(&mut self, key: HashKey)
        ensures { self.new ≡ self.old }
    {
        self.links.next_key = Some(key);
    }

    /// How many names there are.
    pub fn count(&self) -> usize
        ensures count { result ≡ length self.now }
        ensures limit { length self.now ≤ 2 ^ 32 }
    {
        self.spans.len()
    }

    /// The number of a name, if it is there. It is looked up by its hash.
    pub fn find(&self, text: &[u8]) -> Option<usize>
        ensures place { result ≡ place_of text.now self.now }
        ensures limit { IfSome result (λ number. number < 2 ^ 32) }
    {
        let hash = self.links.hash_of(text);
        self.links.find(&self.bytes, &self.spans, text, hash)
    }

    /// The name with this number.
    pub fn get(&self, number: usize) -> Option<&[u8]>
        ensures { option_copied result ≡ slice_get self.now number }
    {
        let span = *self.spans.get(number)?;
        Some(text_at(&self.bytes, span))
    }

    /// The name with this number, empty where there is none.
    pub fn name_at(&self, number: usize) -> &[u8]
        ensures { result.now ≡ name_at self.now number }
    {
        self.get(number).unwrap_or(&[])
    }

    /// The number of a name; a new name is added at the end. For a name that is there no memory is taken, and the table
    /// refuses to grow past 2 to the 32 names.
    pub fn number(&mut self, alloc: Global, text: &[u8]) -> Result<usize, AllocError>
        ensures number { IfOk result (λ number. number ≡ number_of text.now self.old) }
        ensures limit { IfOk result (λ number. number < 2 ^ 32) }
        ensures names { OnOk result (self.new ≡ numbered text.now self.old) }
        ensures err { OnErr result (self.new ≡ self.old) }
        ensures err_only_new { OnErr result (place_of text.now self.old ≡ None) }
    {
        let hash = self.links.hash_of(text);
        if let Some(number) = self.links.find(&self.bytes, &self.spans, text, hash) {
            return Ok(number);
        }
        let number = self.spans.len();
        if number >= TABLE_LIMIT {
            return Err(AllocError);
        }
        let hash = self
            .links
            .make_room(alloc, &self.bytes, &self.spans, text, hash)?;
        self.spans.reserve(1)?;
        let start = self.bytes.len();
        self.bytes.extend_from_slice(text)?;
        let end = self.bytes.len();
        self.links.add(hash, number as u32);
        self.spans.push_reserved(Span { start, end });
        Ok(number)
    }
}
