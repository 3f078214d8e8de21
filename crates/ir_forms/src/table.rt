ghost use Rattle.std.specs.Prelude.{◌≡◌, IfOk, OnOk, slice_get, slice_set, length, ◌<◌};
ghost use Rattle.ir_ast.specs.Names.{number_of, numbered, place_of};
ghost use Rattle.ir_forms.specs.Cursor as place;
ghost use Rattle.ir_forms.specs.Table as spec;
ghost use Rattle.std.specs.Option.{option_copied};

use crate::cursor::Cursor;
use ir_ast::{HashKey, Names};
use items::Items;
use std::alloc::{AllocError, Global};

/// Names in the order in which they are mentioned first, and what each of them means so far.
#[derive(Drop)]
pub struct Table<S> {
    pub names: Names,
    pub sorts: Items<S>,
}

impl<S: Copy + Drop> Table<S> {
    pub fn new(alloc: Global, key: HashKey) -> Self
        ensures { result ≡ spec.empty }
    {
        Table {
            names: Names::new(alloc, key),
            sorts: Items::new(alloc),
        }
    }

    /// The number of a name. A new name is added, and means nothing so far.
    pub fn mention(&mut self, alloc: Global, name: &[u8], nothing: S) -> Result<usize, AllocError>
        ensures number { IfOk result (λ number. number ≡ number_of name.now self.old.names) }
        ensures table { OnOk result (self.new ≡ spec.mentioned name.now nothing self.old) }
    {
        let known = self.names.count();
        let number = self.names.number(alloc, name)?;
        if number >= known {
            self.sorts.push(nothing)?;
        }
        Ok(number)
    }

    /// The number of the name that the next token spells.
    pub fn mention_next(
        &mut self,
        alloc: Global,
        cursor: &Cursor<'_>,
        nothing: S,
    ) -> Result<usize, AllocError>
        ensures number { IfOk result (λ number. number ≡ number_of (place.spelled cursor.now) self.old.names) }
        ensures table { OnOk result (self.new ≡ spec.mentioned (place.spelled cursor.now) nothing self.old) }
    {
        match cursor.borrowed() {
            Some(name) => self.mention(alloc, name, nothing),
            None => {
                let name = cursor.spelled(alloc)?;
                self.mention(alloc, name.as_slice(), nothing)
            }
        }
    }

    /// The number of the next token as a local name.
    pub fn mention_local(
        &mut self,
        alloc: Global,
        cursor: &Cursor<'_>,
        nothing: S,
    ) -> Result<usize, AllocError>
        ensures number { IfOk result (λ number. number ≡ number_of (place.local_key cursor.now) self.old.names) }
        ensures table { OnOk result (self.new ≡ spec.mentioned (place.local_key cursor.now) nothing self.old) }
    {
        match cursor.borrowed_key() {
            Some(key) => self.mention(alloc, key, nothing),
            None => {
                let key = cursor.local_key(alloc)?;
                self.mention(alloc, key.as_slice(), nothing)
            }
        }
    }

    /// The number of the name that the next token spells, if it is there.
    pub fn find_next(&self, alloc: Global, cursor: &Cursor<'_>) -> Result<Option<usize>, AllocError>
        ensures { IfOk result (λ number. number ≡ place_of (place.spelled cursor.now) self.now.names) }
    {
        match cursor.borrowed() {
            Some(name) => Ok(self.names.find(name)),
            None => {
                let name = cursor.spelled(alloc)?;
                Ok(self.names.find(name.as_slice()))
            }
        }
    }

    /// What a name means so far.
    pub fn sort(&self, number: usize) -> Option<S>
        ensures { result ≡ slice_get self.now.sorts number }
    {
        self.sorts.get(number).copied()
    }

    /// A name means this from now on.
    pub fn define(&mut self, number: usize, sort: S)
        ensures { self.new ≡ spec.defined number sort self.old }
    {
        if number < self.sorts.len() {
            self.sorts.set(number, sort);
        }
    }
}
