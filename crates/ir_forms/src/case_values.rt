//! The constants of a switch's cases.
ghost use Rattle.std.specs.Prelude.{◌≡◌, [], OnOk};
ghost use Rattle.ir_forms.specs.CaseValues as spec;

use indexmap::IndexSet;
use ir_ast::{Constant, HashKey};
use std::alloc::{AllocError, Global};
use std::marker::Model;

/// What a constant is as a case of a switch.
#[derive(Clone, Copy, PartialEq, Eq, Hash)]
pub enum CaseValue {
    Number(u64),
    Float(u64),
    Null,
    True,
    False,
}

impl CaseValue {
    pub fn of(constant: Constant) -> CaseValue
        ensures { result ≡ spec.value_of constant }
    {
        match constant {
            Constant::Number(number) => CaseValue::Number(number),
            Constant::Float(bits) => CaseValue::Float(bits),
            Constant::Null => CaseValue::Null,
            Constant::Truth(true) => CaseValue::True,
            Constant::Truth(false) => CaseValue::False,
        }
    }
}

/// The values of the cases so far, which are looked up by their hashes.
#[derive(Drop)]
pub struct CaseValues {
    each: IndexSet<CaseValue, HashKey>,
}

impl Model for CaseValues {
    ghost use Rattle.std.specs.Prelude.{List};
    ghost use Rattle.ir_forms.specs.declared.case_values.CaseValue.{CaseValue};

    ghost Value = { List CaseValue };

    ghost view = { λ values. values.each.keys };
}

impl CaseValues {
    pub fn new(alloc: Global, key: HashKey) -> Self
        ensures { result ≡ [] }
    {
        CaseValues {
            each: IndexSet::with_hasher(alloc, key),
        }
    }

    pub fn has(&self, value: CaseValue) -> bool
        ensures { result ≡ spec.is_among value self.now }
    {
        self.each.contains(&value)
    }

    pub fn add(&mut self, value: CaseValue) -> Result<(), AllocError>
        ensures { OnOk result (self.new ≡ spec.with_value value self.old) }
    {
        self.each.insert_full(value)?;
        Ok(())
    }
}
