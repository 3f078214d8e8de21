ghost use Rattle.std.specs.Prelude.{◌≡◌, ◌<◌, ◌≤◌, ◌^◌, ◌++◌, ◌∷◌, ℕ, suc, [], Some, None, length, slice_get, OnOk, OnErr, IfOk, IfSome};
ghost use Rattle.ir_ast.specs.Types.{place_of_type, number_of_type, numbered_type};
ghost use Rattle.ir_ast.specs.Fields.{after_fields, IsJump};
ghost use Rattle.ir_ast.specs.Hints.{IsHint};

use crate::hash_key::HashKey;
use crate::hint::{HINTS, Hint, hint_in, place_in_hints};
use crate::ir_type::IrType;
use crate::jump::Jump;
use crate::names::TABLE_LIMIT;
use crate::rehashed::rehash;
use crate::type_id::TypeId;
use indexmap::IndexSet;
use std::alloc::{AllocError, Global};
use std::marker::Model;

/// Distinct types, numbered from 0 in the order in which they came. Each has a jump, so that a field of a struct with n fields is
/// found by about log n of them.
#[derive(Drop)]
pub struct Types {
    each: IndexSet<IrType, HashKey>,
    jumps: Vec<Jump>,
    /// Types that were found last, with their numbers, so that most are found without a hash.
    hints: Vec<Option<Hint>>,
    /// The key to hash by from the next new type on, where it is another one.
    next_key: Option<HashKey>,
}

impl Model for Types {
    ghost use Rattle.std.specs.Prelude.{◌≡◌, ◌≤◌, ◌^◌, List, length};
    ghost use Rattle.ir_ast.specs.Fields.{AreJumps};
    ghost use Rattle.ir_ast.specs.Hints.{AreHints};
    ghost use Rattle.ir_ast.specs.declared.ir_type.IrType.{IrType};

    ghost Value = { List IrType };

    ghost view = { λ types. types.each.keys };

    ghost invariant = { λ types. (length types.each.keys ≤ 2 ^ 32) × (length types.jumps.items ≡ length types.each.keys) × AreJumps types.each.keys types.jumps.items × AreHints types.each.keys types.hints.items };
}

impl Types {
    pub fn new(alloc: Global, key: HashKey) -> Self
        ensures { result ≡ [] }
    {
        Types {
            each: IndexSet::with_hasher(alloc, key),
            jumps: Vec::new(alloc),
            hints: Vec::new(alloc),
            next_key: None,
        }
    }

    /// The key by which a new type is hashed.
    pub fn key(&self) -> HashKey {
        match self.next_key {
            Some(key) => key,
            None => *self.each.hasher(),
        }
    }

    /// Hashes by this key as soon as a type is new. A text that adds nothing leaves the table as it is.
    pub fn set_key(&mut self, key: HashKey)
        ensures { self.new ≡ self.old }
    {
        self.next_key = Some(key);
    }

    /// Hashes by the key that is set.
    fn take_key(&mut self) -> Result<(), AllocError>
        ensures { self.new ≡ self.old }
    {
        if let Some(key) = self.next_key {
            let alloc = *self.each.allocator();
            rehash(alloc, &mut self.each, key)?;
            self.next_key = None;
        }
        Ok(())
    }

    /// How many types there are.
    pub fn count(&self) -> usize
        ensures count { result ≡ length self.now }
        ensures limit { length self.now ≤ 2 ^ 32 }
    {
        self.each.len()
    }

    /// The number of a type, if it is there.
    pub fn find(&self, sought: IrType) -> Option<TypeId>
        ensures { result ≡ place_of_type sought self.now }
    {
        match hint_in(&self.hints, &sought) {
            Some(number) => Some(number),
            None => self.find_by_hash(sought),
        }
    }

    /// The number of a type, if it is there. It is looked up by its hash.
    fn find_by_hash(&self, sought: IrType) -> Option<TypeId>
        ensures { result ≡ place_of_type sought self.now }
    {
        let number = self.each.get_index_of(&sought)?;
        Some(TypeId::new(number as u32))
    }

    /// A type that is there is found without a hash from now on, until another one takes its place among the hints.
    fn note(&mut self, written: IrType, number: TypeId)
        requires { place_of_type written self.old ≡ Some number }
        ensures { self.new ≡ self.old }
    {
        let place = place_in_hints(&written);
        if place < self.hints.len() {
            self.hints[place] = Some(Hint { written, number });
        }
    }

    /// The type with this number.
    pub fn get(&self, number: TypeId) -> Option<IrType>
        ensures { result ≡ slice_get self.now number }
    {
        self.each.get_index(number.number() as usize).copied()
    }

    /// The number of a type; a new type is added at the end. For a type that is there no memory is taken, and the table
    /// refuses to grow past 2 to the 32 types.
    pub fn number(&mut self, written: IrType) -> Result<TypeId, AllocError>
        ensures number { IfOk result (λ number. number ≡ number_of_type written self.old) }
        ensures types { OnOk result (self.new ≡ numbered_type written self.old) }
        ensures there { IfOk result (λ number. slice_get self.new number ≡ Some written) }
        ensures err { OnErr result (self.new ≡ self.old) }
        ensures err_only_new { OnErr result (place_of_type written self.old ≡ None) }
    {
        if let Some(number) = self.find(written) {
            return Ok(number);
        }
        let number = self.each.len();
        if number >= TABLE_LIMIT {
            return Err(AllocError);
        }
        let jump = self.jump_from(&written);
        self.add(written, jump)?;
        let number = TypeId::new(number as u32);
        self.note(written, number);
        Ok(number)
    }

    /// There is room for hints.
    fn make_hints(&mut self) -> Result<(), AllocError>
        ensures { self.new ≡ self.old }
    {
        if self.hints.is_empty() {
            self.hints = vec![in *self.each.allocator(); None; HINTS]?;
        }
        Ok(())
    }

    fn add(&mut self, written: IrType, jump: Jump) -> Result<(), AllocError>
        requires new { place_of_type written self.old ≡ None }
        requires limit { length self.old < 2 ^ 32 }
        requires jump { IsJump (self.old ++ written ∷ []) (length self.old) jump }
        ensures types { OnOk result (self.new ≡ self.old ++ written ∷ []) }
        ensures err { OnErr result (self.new ≡ self.old) }
    {
        self.take_key()?;
        self.make_hints()?;
        self.jumps.push(jump)?;
        match self.each.insert(written) {
            Ok(_) => Ok(()),
            Err(_) => {
                self.jumps.pop();
                Err(AllocError)
            }
        }
    }

    /// The struct of the fields after the first ones of a struct type, if it has as many.
    pub fn after_fields(&self, written: TypeId, number: u64) -> Option<TypeId>
        ensures { result ≡ after_fields self.now (Some written) number }
    {
        let mut to = written;
        let mut left = number;
        while left > 0 {
            let jump = self.jump_within(to, left)?;
            to = jump.to;
            left -= u64::from(jump.fields);
        }
        Some(to)
    }

    /// A jump from a type, which leads over no field where it is no struct type.
    pub fn jump(&self, written: TypeId) -> Option<Jump>
        ensures { IfSome result (IsJump self.now written) }
    {
        self.jumps.get(written.number() as usize).copied()
    }

    /// The longest jump that is known over at least one field of a type and at most these.
    fn jump_within(&self, written: TypeId, most: u64) -> Option<Jump>
        requires { 0 < most }
        ensures none { result ≡ None → after_fields self.now (Some written) most ≡ None }
        ensures some { IfSome result (λ jump. IsJump self.now written jump × (0 < jump.fields) × (jump.fields ≤ most)) }
    {
        match self.jump(written) {
            Some(jump) => {
                if 0 < jump.fields && u64::from(jump.fields) <= most {
                    Some(jump)
                } else {
                    self.over_first(written)
                }
            }
            None => self.over_first(written),
        }
    }

    fn over_first(&self, written: TypeId) -> Option<Jump>
        ensures none { (n : ℕ) → result ≡ None → after_fields self.now (Some written) (suc n) ≡ None }
        ensures some { IfSome result (λ jump. IsJump self.now written jump × (jump.fields ≡ 1)) }
    {
        match self.get(written)? {
            IrType::Struct { rest, .. } => Some(Jump {
                to: rest,
                fields: 1,
            }),
            _ => None,
        }
    }

    /// The jump of a type that is added next.
    fn jump_from(&self, written: &IrType) -> Jump
        requires { length self.now < 2 ^ 32 }
        ensures { IsJump (self.now ++ written.now ∷ []) (length self.now) result }
    {
        match written {
            IrType::Struct { rest, .. } => match self.over_two_more(*rest) {
                Some(jump) => jump,
                None => Jump {
                    to: *rest,
                    fields: 1,
                },
            },
            _ => Jump {
                to: TypeId::new(self.each.len() as u32),
                fields: 0,
            },
        }
    }

    /// Over a field before these, and then two jumps on, where those are as long as each other.
    fn over_two_more(&self, rest: TypeId) -> Option<Jump>
        ensures { IfSome result (λ jump. (n : ℕ) × (jump.fields ≡ suc n) × (after_fields self.now (Some rest) n ≡ Some jump.to)) }
    {
        let next = self.jump(rest)?;
        let after = self.jump(next.to)?;
        if next.fields != after.fields {
            return None;
        }
        let both = next.fields.checked_add(after.fields)?;
        Some(Jump {
            to: after.to,
            fields: both.checked_add(1)?,
        })
    }
}
