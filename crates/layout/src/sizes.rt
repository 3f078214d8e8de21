ghost use Rattle.std.specs.Prelude.{◌≡◌, ◌<◌, ◌≤◌, ℕ, suc, Some, None, slice_get, unwrap_or, IfOk, IfSome};
ghost use Rattle.layout.specs.Offsets.{sum_of};
ghost use Rattle.layout.specs.Jumps.{words_over, IsOver, AreOver};

use ir_ast::{IrType, TypeId, Types};
use items::Items;
use std::alloc::{AllocError, Global};

/// How many words a cell may have.
const WORD_LIMIT: u64 = 64;

/// A jump over fields of a struct type.
#[derive(Clone, Copy)]
pub struct Over {
    /// The struct of the fields after them.
    pub to: TypeId,
    pub fields: u32,
    /// How many words they have together, if at most 64.
    pub words: Option<u32>,
}

/// How many words each type of a table has, and a jump from each.
#[derive(Drop)]
pub struct Sizes {
    pub each: Items<Option<u32>>,
    pub jumps: Items<Over>,
}

impl Sizes {
    /// These sizes, and how many words the jumps of the types lead over.
    pub fn of(alloc: Global, types: &Types, each: Items<Option<u32>>) -> Result<Self, AllocError>
        ensures each { IfOk result (λ sizes. sizes.each ≡ each) }
        ensures jumps { IfOk result (λ sizes. AreOver types.now sizes.each sizes.jumps) }
    {
        let mut sizes = Sizes {
            each,
            jumps: Items::new(alloc),
        };
        for number in 0..types.count() {
            let over = sizes.over(types, TypeId::new(number as u32));
            sizes.jumps.push(over)?;
        }
        Ok(sizes)
    }

    /// How many words a type has, if it has at most 64.
    pub fn size(&self, written: TypeId) -> Option<u32>
        ensures { result ≡ unwrap_or (slice_get self.now.each written) None }
    {
        match self.each.get(written.number() as usize) {
            Some(size) => *size,
            None => None,
        }
    }

    /// How many words the first fields of a struct type have together. None where it has fewer fields, or where they have more than
    /// 64 words. Of n fields they are found by some log n jumps.
    pub fn words_over(&self, types: &Types, written: TypeId, number: u64) -> Option<u32>
        requires jumps { AreOver types.now self.now.each self.now.jumps }
        ensures { result ≡ words_over types.now self.now.each (slice_get types.now written) number }
    {
        let mut to = written;
        let mut words = Some(0);
        let mut left = number;
        while left > 0 {
            let over = self.over_within(types, to, left)?;
            to = over.to;
            words = sum_within(words, over.words);
            left -= u64::from(over.fields);
        }
        words
    }

    /// The jump of a type that has none yet, given those of the types before it.
    fn over(&self, types: &Types, written: TypeId) -> Over
        requires jumps { AreOver types.now self.now.each self.now.jumps }
        ensures { IsOver types.now self.now.each written result }
    {
        match types.jump(written) {
            Some(jump) => Over {
                to: jump.to,
                fields: jump.fields,
                words: self.words_over(types, written, u64::from(jump.fields)),
            },
            None => Over {
                to: written,
                fields: 0,
                words: Some(0),
            },
        }
    }

    /// The longest jump that is known over at least one field of a type and at most these.
    fn over_within(&self, types: &Types, written: TypeId, most: u64) -> Option<Over>
        requires jumps { AreOver types.now self.now.each self.now.jumps }
        requires some { 0 < most }
        ensures none { result ≡ None → words_over types.now self.now.each (slice_get types.now written) most ≡ None }
        ensures some { IfSome result (λ over. IsOver types.now self.now.each written over × (0 < over.fields) × (over.fields ≤ most)) }
    {
        match self.jumps.get(written.number() as usize) {
            Some(over) => {
                if 0 < over.fields && u64::from(over.fields) <= most {
                    Some(*over)
                } else {
                    self.over_first(types, written)
                }
            }
            None => self.over_first(types, written),
        }
    }

    fn over_first(&self, types: &Types, written: TypeId) -> Option<Over>
        ensures none { (n : ℕ) → result ≡ None → words_over types.now self.now.each (slice_get types.now written) (suc n) ≡ None }
        ensures some { IfSome result (λ over. IsOver types.now self.now.each written over × (over.fields ≡ 1)) }
    {
        match types.get(written)? {
            IrType::Struct { first, rest } => Some(Over {
                to: rest,
                fields: 1,
                words: sum_within(self.size(first), Some(0)),
            }),
            _ => None,
        }
    }
}

/// The sum of two numbers of words, if it is at most 64.
pub fn sum_within(one: Option<u32>, other: Option<u32>) -> Option<u32>
    ensures { result ≡ sum_of one other }
{
    let sum = u64::from(one?) + u64::from(other?);
    if sum > WORD_LIMIT {
        return None;
    }
    Some(sum as u32)
}
