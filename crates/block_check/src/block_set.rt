//! A set of blocks.
ghost use Rattle.std.specs.Prelude.{ℕ, ◌≡◌, ◌==◌, ◌||◌, [], IfOk, OnOk};
ghost use Rattle.block_check.specs.Predecessors.{is_in};

use indexmap::IndexSet;
use ir_ast::BlockId;
use std::alloc::{AllocError, Global};
use std::marker::Model;

/// Up to so many numbers each is looked at by itself.
const FEW: usize = 8;

/// The numbers of some blocks, in the order in which they came. Where they are many, they are looked up by their hashes.
#[derive(Drop)]
pub struct BlockSet {
    /// The numbers, where `many` has none.
    few: Vec<u32>,
    many: IndexSet<u32>,
}

impl Model for BlockSet {
    ghost use Rattle.std.specs.Prelude.{List, ℕ};
    ghost use Rattle.block_check.specs.Predecessors.{many_or_few};

    ghost Value = { List ℕ };

    ghost view = { λ blocks. many_or_few blocks.many.keys blocks.few.items };
}

impl BlockSet {
    pub fn new(alloc: Global) -> Self
        ensures { result ≡ [] }
    {
        BlockSet {
            few: Vec::new(alloc),
            many: IndexSet::new(alloc),
        }
    }

    pub fn numbers(&self) -> &[u32]
        ensures { result.now ≡ self.now }
    {
        match self.many.as_slice() {
            [] => self.few.as_slice(),
            many => many,
        }
    }

    pub fn has(&self, block: BlockId) -> bool
        ensures { result ≡ is_in self.now block }
    {
        match self.many.as_slice() {
            [] => has_number(self.few.as_slice(), block.number()),
            _ => self.many.contains(&block.number()),
        }
    }

    pub fn add(&mut self, block: BlockId) -> Result<(), AllocError>
        ensures { OnOk result ((other : ℕ) → is_in self.new other ≡ (is_in self.old other || (block == other))) }
    {
        let number = block.number();
        if !self.many.is_empty() {
            return insert(&mut self.many, number);
        }
        if has_number(self.few.as_slice(), number) {
            return Ok(());
        }
        if self.few.len() < FEW {
            self.few.push(number)?;
            return Ok(());
        }
        self.many = hashed(*self.few.allocator(), self.few.as_slice(), number)?;
        Ok(())
    }
}

fn has_number(numbers: &[u32], number: u32) -> bool
    ensures { result ≡ is_in numbers.now number }
{
    numbers.iter().any(|other| number == *other)
}

fn insert(numbers: &mut IndexSet<u32>, number: u32) -> Result<(), AllocError>
    ensures { OnOk result ((other : ℕ) → is_in numbers.new.keys other ≡ (is_in numbers.old.keys other || (number == other))) }
{
    numbers.insert(number)?;
    Ok(())
}

/// These numbers and one more, to be looked up by their hashes.
fn hashed(alloc: Global, numbers: &[u32], last: u32) -> Result<IndexSet<u32>, AllocError>
    ensures { IfOk result (λ set. (other : ℕ) → is_in set.keys other ≡ (is_in numbers.now other || (last == other))) }
{
    let mut set = IndexSet::new(alloc);
    for number in numbers {
        insert(&mut set, *number)?;
    }
    insert(&mut set, last)?;
    Ok(set)
}
