use ir_ast::{FuncId, Module, ValueId};
use number_tables::row_or;
use std::alloc::{AllocError, Global};

/// Numbers of the values of all functions of a module, and of what each function returns. Those of a function come after those of
/// the functions before it.
#[derive(Drop)]
pub struct ValueNumbers {
    /// The first number of each function, and how many there are.
    firsts: Vec<u32>,
}

impl ValueNumbers {
    pub fn of(alloc: Global, module: &Module) -> Result<ValueNumbers, AllocError> {
        let mut firsts = Vec::new(alloc);
        let mut first = 0u32;
        for function in module.functions.as_slice() {
            firsts.push(first)?;
            let values = u32::try_from(function.locals.count()).unwrap_or(u32::MAX);
            first = first.saturating_add(values).saturating_add(1);
        }
        firsts.push(first)?;
        Ok(ValueNumbers { firsts })
    }

    /// How many there are.
    pub fn count(&self) -> usize {
        match self.firsts.last() {
            Some(count) => *count as usize,
            None => 0,
        }
    }

    /// The number of a function's value.
    pub fn of_value(&self, func: FuncId, value: ValueId) -> u32 {
        row_or(&self.firsts, func.number() as usize, u32::MAX).saturating_add(value.number())
    }

    /// The number of what a function returns.
    pub fn of_result(&self, func: FuncId) -> u32 {
        let next = (func.number() as usize).saturating_add(1);
        row_or(&self.firsts, next, 0).saturating_sub(1)
    }
}
